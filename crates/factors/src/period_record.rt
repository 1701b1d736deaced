// The record of one period.
ghost use Rattle.std.specs.Prelude.{◌≡◌};
ghost use Rattle.factors.specs.Periods.{noted, unread};

use crate::judgement::Judgement;
use crate::worst::Worst;

// The readings accepted, whether every one of them had the contract available, and the largest rolling error.
#[derive(Clone, Copy)]
pub struct PeriodRecord {
    pub readings: u64,
    pub throughout: bool,
    pub worst: Worst,
}

impl PeriodRecord {
    pub fn new() -> PeriodRecord
        ensures { result ≡ unread }
    {
        PeriodRecord {
            readings: 0,
            throughout: true,
            worst: Worst::new(),
        }
    }

    // Takes in a reading of the period, with the rolling error at it.
    pub fn take_in(&mut self, j: &Judgement, rolling: Option<u64>)
        ensures { self.new ≡ noted self.old j.now rolling }
    {
        self.readings = self.readings.saturating_add(1);
        self.throughout = self.throughout & j.available;
        self.worst.take_in(rolling, j.tick);
    }
}
