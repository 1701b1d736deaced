// What a closed block tells.
ghost use Rattle.std.specs.Prelude.{◌≡◌, Ok, Err};
ghost use Rattle.account.specs.Closed.{told_of, period_record, period_number};
ghost use Rattle.factors.specs.Money.{told};

use crate::closed_block::ClosedBlock;
use basics::require;
use factors::{PeriodFigures, Settlement};
use rules::{Contract, PERIODS};

// Why there is no record of a period, with the number by which the fault is reported.
#[derive(Clone, Copy, PartialEq, Eq, Debug)]
pub enum PeriodFault {
    // The number is outside 0 to 7.
    NoSuchPeriod = 26,
}

impl PeriodFault {
    // The number by which the fault is reported. (Each type of fault has this line: a trait would ask it of each again.)
    pub fn number(self) -> u32
        ensures { result ≡ period_number self }
    {
        self as u32
    }
}

impl<C> ClosedBlock<C> {
    // What a contract comes to.
    pub fn settlement(&self, contract: Contract) -> Settlement
        ensures { told result ≡ told_of contract self.now }
    {
        contract.pick(self.low, self.high)
    }

    // The sum over payable periods, in pence.
    pub fn sum(&self, contract: Contract) -> i64
        ensures { result ≡ (told_of contract self.now).sum }
    {
        self.settlement(contract).sum
    }

    // The block factor, in millionths.
    pub fn factor(&self, contract: Contract) -> u64
        ensures { result ≡ (told_of contract self.now).factor }
    {
        self.settlement(contract).factor
    }

    // The payment, in pence.
    pub fn payment(&self, contract: Contract) -> i64
        ensures { result ≡ (told_of contract self.now).payment }
    {
        self.settlement(contract).payment
    }

    // The record of a period, by its number from 0.
    pub fn period_record(
        &self,
        contract: Contract,
        number: i64,
    ) -> Result<PeriodFigures, PeriodFault>
        ensures { result ≡ period_record (told_of contract self.now) number }
    {
        require(
            (0..PERIODS as i64).contains(&number),
            PeriodFault::NoSuchPeriod,
        )?;
        Ok(self.settlement(contract).periods[number as usize])
    }

    // The curve, for another block.
    pub fn into_curve(self) -> C
        ensures { result ≡ self.curve }
    {
        let ClosedBlock {
            curve,
            low: _,
            high: _,
        } = self;
        curve
    }
}
