// Terms as they are handed in, and the check that they have to pass.
ghost use Rattle.std.specs.Prelude.{◌≡◌, Some, None, Ok, Err};
ghost use Rattle.rules.specs.TermsCheck.{refused_terms, terms_number, some_held, quantities_fit, prices_fit, a_fits, b_fits, length_fits, needed_fits};

use basics::require;

// A contract's quantity in MW and price in pence per MW and hour, as handed in.
#[derive(Clone, Copy, PartialEq, Eq, Debug)]
pub struct Offer {
    pub quantity: i64,
    pub price: i64,
}

// Terms as handed in: any numbers at all. (Two fields for low and high: see `Contract::pick`.)
#[derive(Clone, Copy, PartialEq, Eq, Debug)]
pub struct TermsInput {
    pub ticks: i64,
    pub needed: i64,
    pub a: i64,
    pub b: i64,
    pub low: Offer,
    pub high: Offer,
}

// Why terms are turned away.
#[derive(Clone, Copy, PartialEq, Eq, Debug)]
pub enum TermsFault {
    // Both quantities are 0.
    NothingHeld = 1,
    // A quantity is outside 0 to 100.
    Quantity = 2,
    // A price is outside 0 to 99,999.
    Price = 3,
    // A is below 1,000.
    ToleranceA = 4,
    // B is not above A, or above 1,000,000.
    ToleranceB = 5,
    // The ticks of a period are outside 16 to 36,000.
    PeriodLength = 6,
    // The readings that a period needs are outside 1 to its ticks.
    LeastReadings = 7,
}

impl TermsFault {
    // The number by which the refusal is reported. (Each type of fault has this line: a trait would ask it of each again.)
    pub fn number(self) -> u32
        ensures { result ≡ terms_number self }
    {
        self as u32
    }
}

// Each test has its definition and its refusal. Those of a range are not one function: it would do no more than `contains`.
impl TermsInput {
    fn some_held(&self) -> bool
        ensures { result ≡ some_held self.now }
    {
        self.low.quantity != 0 || self.high.quantity != 0
    }

    fn quantities_fit(&self) -> bool
        ensures { result ≡ quantities_fit self.now }
    {
        (0..=100).contains(&self.low.quantity) & (0..=100).contains(&self.high.quantity)
    }

    fn prices_fit(&self) -> bool
        ensures { result ≡ prices_fit self.now }
    {
        (0..=99_999).contains(&self.low.price) & (0..=99_999).contains(&self.high.price)
    }

    fn a_fits(&self) -> bool
        ensures { result ≡ a_fits self.now }
    {
        self.a >= 1_000
    }

    fn b_fits(&self) -> bool
        ensures { result ≡ b_fits self.now }
    {
        (self.a < self.b) & (self.b <= 1_000_000)
    }

    fn length_fits(&self) -> bool
        ensures { result ≡ length_fits self.now }
    {
        (16..=36_000).contains(&self.ticks)
    }

    fn needed_fits(&self) -> bool
        ensures { result ≡ needed_fits self.now }
    {
        (1..=self.ticks).contains(&self.needed)
    }

    // Nothing if the terms pass every check, else the first refusal in the order of their numbers.
    pub fn check(&self) -> Result<(), TermsFault>
        ensures { elim result [ Ok _ ↦ refused_terms self.now ≡ None | Err e ↦ refused_terms self.now ≡ Some e ] }
    {
        require(self.some_held(), TermsFault::NothingHeld)?;
        require(self.quantities_fit(), TermsFault::Quantity)?;
        require(self.prices_fit(), TermsFault::Price)?;
        require(self.a_fits(), TermsFault::ToleranceA)?;
        require(self.b_fits(), TermsFault::ToleranceB)?;
        require(self.length_fits(), TermsFault::PeriodLength)?;
        require(self.needed_fits(), TermsFault::LeastReadings)
    }
}
