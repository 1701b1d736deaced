// What is asked of a closed block: the record of a period, and what a contract comes to.
use crate::shown::{Money, Record, Refused, name};
use account::ClosedBlock;
use report::Report;
use rules::Contract;
use std::io;

// A period number, and what should be told of that period.
#[derive(Clone, Copy)]
pub struct Asked(pub i64, pub Result<Record, Refused>);

// What should be told of a contract: records that are asked for, and its money.
#[derive(Clone, Copy)]
pub struct Comes(pub &'static [Asked], pub Money);

// A closed block, which is asked of one of its contracts.
#[derive(Drop)]
pub struct Asking<'a, C> {
    block: &'a ClosedBlock<C>,
    contract: Contract,
}

// One for each contract, by name: one function for both would have each caller hand in a `Contract`, which is no shorter.
pub fn low<C>(block: &ClosedBlock<C>) -> Asking<'_, C> {
    Asking {
        block,
        contract: Contract::Low,
    }
}

pub fn high<C>(block: &ClosedBlock<C>) -> Asking<'_, C> {
    Asking {
        block,
        contract: Contract::High,
    }
}

impl<C> Asking<'_, C> {
    pub fn record(&self, number: i64) -> Result<Record, Refused> {
        Ok(Record::from(self.block.period_record(self.contract, number)?))
    }

    pub fn money(&self) -> Money {
        Money(
            self.block.sum(self.contract),
            self.block.factor(self.contract),
            self.block.payment(self.contract),
        )
    }

    pub fn show_records(&self, report: &mut Report<impl Print>, table: &[Asked]) -> io::Result<()> {
        let name = name(self.contract);
        for Asked(number, should_be) in table {
            report.outcome(
                format_args!("{name} record {number}"),
                self.record(*number),
                *should_be,
            )?;
        }
        Ok(())
    }

    pub fn show(&self, report: &mut Report<impl Print>, should_be: Comes) -> io::Result<()> {
        let Comes(table, money) = should_be;
        self.show_records(report, table)?;
        report.compare(name(self.contract), self.money(), money)
    }
}

// Both contracts of a block.
pub fn show_both<C>(
    report: &mut Report<impl Print>,
    block: &ClosedBlock<C>,
    should_be: (Comes, Comes),
) -> io::Result<()> {
    low(block).show(report, should_be.0)?;
    high(block).show(report, should_be.1)
}
