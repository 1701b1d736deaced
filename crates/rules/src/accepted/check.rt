// The check of a reading, and what an accepted one says.
ghost use Rattle.std.specs.Prelude.{◌≡◌, ◌/◌, ◌<◌, pos, negsuc, ◌-ℤ◌, ◌≤ℤ◌, Some, None, Ok, Err, unsigned_abs};
ghost use Rattle.rules.specs.Flags.{available};
ghost use Rattle.rules.specs.ReadingsCheck.{refused_reading};

use crate::accepted::Accepted;
use crate::reading::{Reading, SampleFault};
use crate::terms::{Contract, Terms};

impl Accepted {
    // The accepted reading, or the first refusal in the order of their numbers; `last` is the last accepted one before it.
    #[tactic(auto, using(crate::proofs::ReadingsFacts::accepted_in_range))]
    pub fn check(
        terms: &Terms,
        last: &Option<Reading>,
        reading: &Reading,
    ) -> Result<Accepted, SampleFault>
        ensures { elim result [ Ok a ↦ (refused_reading terms.now last.now reading.now ≡ None) × (a.reading ≡ reading.now) | Err e ↦ refused_reading terms.now last.now reading.now ≡ Some e ] }
    {
        reading.check(terms, last)?;
        Ok(Accepted { reading: *reading })
    }

    pub fn reading(&self) -> Reading
        ensures { result ≡ self.now.reading }
    {
        self.reading
    }

    // Power less baseline, in kW.
    #[tactic(auto, unfolding(crate::specs::ReadingsCheck::in_range))]
    pub fn response(&self) -> i64
        ensures value { result ≡ self.now.reading.power -ℤ self.now.reading.baseline }
        ensures least { negsuc 1999997 ≤ℤ result }
        ensures most { result ≤ℤ pos 1999998 }
    {
        self.reading.power - self.reading.baseline
    }

    // The flag as a place in a table. It stays a number: the rules number flags 0 to 3, and its two bits are the contracts.
    #[tactic(auto, unfolding(crate::specs::ReadingsCheck::in_range))]
    pub fn flag(&self) -> usize
        ensures value { result ≡ unsigned_abs self.now.reading.flag }
        ensures bound { result < 4 }
    {
        self.reading.flag as usize
    }

    // The tick as a count from the block's start.
    #[tactic(auto, unfolding(crate::specs::ReadingsCheck::in_range))]
    pub fn tick(&self) -> u64
        ensures value { pos result ≡ self.now.reading.tick }
        ensures bound { result < 288000 }
    {
        self.reading.tick as u64
    }

    // Whether the contract was available.
    pub fn available(&self, contract: Contract) -> bool
        ensures { result ≡ available contract self.now.reading.flag }
    {
        contract.pick(self.flag() % 2 == 1, self.flag() / 2 % 2 == 1)
    }
}
