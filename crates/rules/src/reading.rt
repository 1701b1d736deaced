// Readings as they are handed in, and the check that they have to pass.
ghost use Rattle.std.specs.Prelude.{◌≡◌, ◌≤◌, Some, None, Ok, Err};
ghost use Rattle.rules.specs.ReadingsCheck.{refused_reading, sample_number, frequency_fits, power_fits, baseline_fits, flag_fits, after_last, in_block};

use crate::terms::Terms;
use basics::require;

// A reading of a battery: the tick of 50 ms, counted from 0 at the block's start; the frequency in mHz; power and baseline
// in kW; and the flag, which says what is available: 0 neither contract, 1 low only, 2 high only, 3 both.
#[derive(Clone, Copy, PartialEq, Eq, Debug)]
pub struct Reading {
    pub tick: i64,
    pub frequency: i64,
    pub power: i64,
    pub baseline: i64,
    pub flag: i64,
}

// Why a reading is turned away.
#[derive(Clone, Copy, PartialEq, Eq, Debug)]
pub enum SampleFault {
    // The frequency is outside 40,000 to 60,000.
    Frequency = 13,
    // The power is outside -999,999 to 999,999.
    Power = 14,
    // The baseline is outside -999,999 to 999,999.
    Baseline = 15,
    // The flag is outside 0 to 3.
    Flag = 16,
    // The tick is not above that of the last accepted reading.
    NotAfterLast = 17,
    // The tick is before the block or past its last period.
    OutsideBlock = 18,
}

impl SampleFault {
    // The number by which the refusal is reported. (Each type of fault has this line: a trait would ask it of each again.)
    pub fn number(self) -> u32
        ensures { result ≡ sample_number self }
    {
        self as u32
    }
}

// Each test has its definition and its refusal. Those of a range are not one function: it would do no more than `contains`.
impl Reading {
    fn frequency_fits(&self) -> bool
        ensures { result ≡ frequency_fits self.now }
    {
        (40_000..=60_000).contains(&self.frequency)
    }

    fn power_fits(&self) -> bool
        ensures { result ≡ power_fits self.now }
    {
        (-999_999..=999_999).contains(&self.power)
    }

    fn baseline_fits(&self) -> bool
        ensures { result ≡ baseline_fits self.now }
    {
        (-999_999..=999_999).contains(&self.baseline)
    }

    fn flag_fits(&self) -> bool
        ensures { result ≡ flag_fits self.now }
    {
        (0..=3).contains(&self.flag)
    }

    fn after_last(&self, last: &Option<Reading>) -> bool
        ensures { result ≡ after_last last.now self.now }
    {
        last.is_none_or(|last| last.tick < self.tick)
    }

    fn in_block(&self, terms: &Terms) -> bool
        ensures { result ≡ in_block terms.now self.now }
    {
        (0..terms.block_ticks()).contains(&self.tick)
    }

    // Nothing if the reading passes every check, else the first refusal in the order of their numbers; `last` is the last
    // accepted reading before it.
    pub fn check(&self, terms: &Terms, last: &Option<Reading>) -> Result<(), SampleFault>
        ensures { elim result [ Ok _ ↦ refused_reading terms.now last.now self.now ≡ None | Err e ↦ refused_reading terms.now last.now self.now ≡ Some e ] }
    {
        require(self.frequency_fits(), SampleFault::Frequency)?;
        require(self.power_fits(), SampleFault::Power)?;
        require(self.baseline_fits(), SampleFault::Baseline)?;
        require(self.flag_fits(), SampleFault::Flag)?;
        require(self.after_last(last), SampleFault::NotAfterLast)?;
        require(self.in_block(terms), SampleFault::OutsideBlock)
    }
}
