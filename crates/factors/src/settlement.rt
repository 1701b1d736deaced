// What a contract comes to once its block is over.
ghost use Rattle.std.specs.Prelude.{◌≡◌, nat_lt};
ghost use Rattle.factors.specs.Factors.{figures_of};
ghost use Rattle.std.proofs.Common.{rules};

use crate::factors::factor;
use crate::period_record::PeriodRecord;
use crate::worst::Worst;
use rules::{Order, PERIODS, Terms};

// The figures of one period: its number, the readings accepted, whether it is payable, the largest rolling error with the
// first tick that reached it, and the factor in millionths.
#[derive(Clone, Copy)]
pub struct PeriodFigures {
    pub period: u64,
    pub readings: u64,
    pub payable: bool,
    pub worst: Worst,
    pub factor: u64,
}

// The figures of every period, the sum in pence, the block factor in millionths and the payment in pence.
#[derive(Clone, Copy)]
pub struct Settlement {
    pub periods: [PeriodFigures; PERIODS],
    pub sum: i64,
    pub factor: u64,
    pub payment: i64,
}

// The period with the lower factor comes before. (By a rule of the project, and no derive: periods are not ordered by all they say.)
#[derive(Clone, Copy)]
pub struct ByFactor;

impl Order<PeriodFigures> for ByFactor {
    ghost before = { λ x y. nat_lt x.factor y.factor };

    ghost ranks = { Prim.search rules };

    fn before(x: &PeriodFigures, y: &PeriodFigures) -> bool {
        x.factor < y.factor
    }
}

impl PeriodRecord {
    // A period is payable if it has at least the readings needed and every one of them had the contract available.
    pub fn figures(&self, terms: &Terms, period: u64) -> PeriodFigures
        ensures { result ≡ figures_of terms.now period self.now }
    {
        PeriodFigures {
            period,
            readings: self.readings,
            payable: (terms.needed() <= self.readings) & self.throughout,
            worst: self.worst,
            factor: factor(terms, self.worst.error),
        }
    }
}
