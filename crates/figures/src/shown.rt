// How answers, records and money are written, shown and compared. Each `Display` but an error's is written by hand: no derive of
// the library writes one. The columns of a row have no names, so that a table's rows stay short; the comment above a type names
// them.
use account::{Answer, PeriodFault};
use either::Either;
use factors::PeriodFigures;
use rules::{Contract, SampleFault};
use std::fmt;
use thiserror::Error;

// What there is, or what is written where there is nothing.
pub fn or<T, D: Drop>(value: Option<T>, none: D) -> Either<D, T> {
    Either::from(value.ok_or(none))
}

// What is told of a contract goes by this name.
pub fn name(contract: Contract) -> &'static str {
    contract.pick("low", "high")
}

// A refusal, by its number: the numbers that docs/RULES.md gives are checked, which a fault's name would not show. (Each fault
// has an impl of its own: no trait gives the number of any of them.)
#[derive(Clone, Copy, PartialEq, Eq, Debug, Error)]
#[error("refused {0}")]
pub struct Refused(pub u32);

impl From<SampleFault> for Refused {
    fn from(fault: SampleFault) -> Refused {
        Refused(fault.number())
    }
}

impl From<PeriodFault> for Refused {
    fn from(fault: PeriodFault) -> Refused {
        Refused(fault.number())
    }
}

// What an accepted reading is answered: its period, its bounds in parts with the lower first, its low error and its high
// error.
#[derive(Clone, Copy, PartialEq, Eq)]
pub struct Accepted(pub u64, pub (i64, i64), pub Option<u64>, pub Option<u64>);

impl From<Answer> for Accepted {
    fn from(answer: Answer) -> Accepted {
        Accepted(answer.period, answer.bounds, answer.low, answer.high)
    }
}

impl fmt::Display for Accepted {
    fn fmt<W: fmt::Write>(&self, f: &mut fmt::Formatter<W>) -> fmt::Result {
        let Accepted(period, (lower, upper), low, high) = *self;
        let low = or(low, "none");
        let high = or(high, "none");
        write!(
            f,
            "period {period}, bounds ({lower}, {upper}), low error {low}, high error {high}"
        )
    }
}

// The record of a period: the period, its readings, whether it is payable, E, the first tick that reached it and the factor.
#[derive(Clone, Copy, PartialEq, Eq)]
pub struct Record(
    pub u64,
    pub u64,
    pub bool,
    pub u64,
    pub Option<u64>,
    pub u64,
);

impl From<PeriodFigures> for Record {
    fn from(record: PeriodFigures) -> Record {
        Record(
            record.period,
            record.readings,
            record.payable,
            record.worst.error,
            record.worst.tick,
            record.factor,
        )
    }
}

impl fmt::Display for Record {
    fn fmt<W: fmt::Write>(&self, f: &mut fmt::Formatter<W>) -> fmt::Result {
        let Record(period, readings, payable, error, tick, factor) = *self;
        let payable = u8::from(payable);
        let tick = or(tick, "none");
        write!(
            f,
            "period {period}, readings {readings}, payable {payable}, E {error}, first tick {tick}, factor {factor}"
        )
    }
}

// What a contract comes to: the sum in pence, the block factor and the payment in pence.
#[derive(Clone, Copy, PartialEq, Eq)]
pub struct Money(pub i64, pub u64, pub i64);

impl fmt::Display for Money {
    fn fmt<W: fmt::Write>(&self, f: &mut fmt::Formatter<W>) -> fmt::Result {
        let Money(sum, factor, payment) = *self;
        write!(f, "sum {sum}, factor {factor}, payment {payment}")
    }
}
