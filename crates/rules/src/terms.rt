// The terms of a block, as they are once checked.
ghost use Rattle.std.specs.Prelude.{◌≡◌, true};
ghost use Rattle.rules.specs.Contract.{picked};
ghost use Rattle.rules.specs.TermsCheck.{sound};

pub mod check;
pub mod contracted;

// A contract for response to low frequency, and one for response to high frequency.
#[derive(Clone, Copy, PartialEq, Eq, Debug)]
pub enum Contract {
    Low,
    High,
}

impl Contract {
    // Of what is said of low and of high, what is said of this contract. (Low and high stay two fields where both are kept: a
    // struct for the pair would have the same two, and its users one name more to go through.)
    pub fn pick<T: Drop>(self, low: T, high: T) -> T
        ensures { result ≡ picked self low high }
    {
        match self {
            Contract::Low => low,
            Contract::High => high,
        }
    }
}

// What is contracted: the quantity in MW, 0 where the contract is not held, and the price in pence per MW and hour. It is no
// `Option`: a contract that is not held is settled by the same rules, and its price is checked and kept.
#[derive(Clone, Copy)]
pub struct Held {
    pub quantity: u64,
    pub price: i64,
}

// The periods of a block. `periods` in specs/ states the number again: were it taken from here, no contract would pin it.
pub const PERIODS: usize = 8;

// Terms that have passed the check, and can be had from nothing else: the ticks of a period, the readings that a period
// needs, the tolerances A and B in millionths of the contracted quantity, and the two contracts.
#[derive(Clone, Copy)]
pub struct Terms {
    ticks: u64,
    needed: u64,
    a: u64,
    b: u64,
    low: Held,
    high: Held,
    ghost checked: { sound ticks needed a b low high ≡ true },
}
