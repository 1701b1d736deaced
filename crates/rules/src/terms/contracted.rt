// What checked terms say.
ghost use Rattle.std.specs.Prelude.{◌≡◌, ◌*◌, ◌<◌, ◌≤◌, pos, ◌≤ℤ◌};
ghost use Rattle.rules.specs.Terms.{terms_of, sides, periods};

use crate::terms::{Contract, Held, PERIODS, Terms};
use curve::Sides;

impl Terms {
    // What is contracted for low or for high frequency.
    #[tactic(auto, unfolding(crate::specs::TermsCheck::sound))]
    pub fn of(&self, contract: Contract) -> Held
        ensures value { result ≡ terms_of self.now contract }
        ensures bound { result.quantity ≤ 100 }
        ensures least_price { pos 0 ≤ℤ result.price }
        ensures most_price { result.price ≤ℤ pos 99999 }
    {
        contract.pick(self.low, self.high)
    }

    // The contracts that are held.
    pub fn sides(&self) -> Sides
        ensures { result ≡ sides self.now }
    {
        match (self.low.quantity > 0, self.high.quantity > 0) {
            (true, true) => Sides::Both,
            (true, false) => Sides::Low,
            (false, _) => Sides::High,
        }
    }

    // The ticks of a period.
    #[tactic(auto, unfolding(crate::specs::TermsCheck::sound))]
    pub fn ticks(&self) -> u64
        ensures value { result ≡ self.now.ticks }
        ensures least { 16 ≤ result }
        ensures most { result ≤ 36000 }
    {
        self.ticks
    }

    // The readings that a period needs.
    pub fn needed(&self) -> u64
        ensures { result ≡ self.now.needed }
    {
        self.needed
    }

    // The tolerances A and B, in millionths of the contracted quantity.
    #[tactic(auto, unfolding(crate::specs::TermsCheck::sound))]
    pub fn band(&self) -> (u64, u64)
        ensures a { result.0 ≡ self.now.a }
        ensures b { result.1 ≡ self.now.b }
        ensures rising { result.0 < result.1 }
        ensures most { result.1 ≤ 1000000 }
    {
        (self.a, self.b)
    }

    // The ticks of the block: those of all its periods.
    pub fn block_ticks(&self) -> i64
        ensures value { result ≡ pos (periods self.now * self.now.ticks) }
        ensures bound { result ≤ℤ pos 288000 }
    {
        PERIODS as i64 * self.ticks() as i64
    }
}
