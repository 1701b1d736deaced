// The worked block of the rules: low only, 50 MW at 1,701 pence, periods of 20 ticks that need 5 readings.
use crate::asked::{Asked, Comes, show_both};
use crate::inputs::{FIFTY, NOT_HELD, Row, Stretch, entries, usual};
use crate::shown::{Accepted, Money, Record};
use crate::steps::{Step, walk};
use account::{Account, Call, Entry, settle};
use curve::Containment;
use report::Report;
use rules::Reading;
use std::alloc::{AllocError, Global};
use std::io;

const FIRST: Row = Row(0, 50_000, 0, 0, 1);

const MIDDLE: [Row; 3] = [
    Row(1, 50_000, 52_500, 0, 1),
    Row(2, 50_000, 52_500, 0, 1),
    Row(3, 50_000, 52_500, 0, 1),
];

const LAST: Row = Row(4, 50_000, 52_500, 0, 1);

// The upper bound is 50,000 kW, which the response at tick 1 exceeds by 2,500 kW.
const FIRST_TWO: [Step; 2] = [
    Step(
        Stretch((0, 0), 50_000, 0, 0, 1),
        Ok(Accepted(0, (0, 222_000), Some(0), None)),
    ),
    Step(
        Stretch((1, 1), 50_000, 52_500, 0, 1),
        Ok(Accepted(0, (0, 222_000), Some(50_000), None)),
    ),
];

const LAST_THREE: [Row; 3] = [
    Row(2, 50_000, 52_500, 0, 1),
    Row(3, 50_000, 52_500, 0, 1),
    LAST,
];

const LOW: [Asked; 8] = [
    Asked(0, Ok(Record(0, 5, true, 50_000, Some(4), 500_000))),
    Asked(1, Ok(Record(1, 0, false, 0, None, 1_000_000))),
    Asked(2, Ok(Record(2, 0, false, 0, None, 1_000_000))),
    Asked(3, Ok(Record(3, 0, false, 0, None, 1_000_000))),
    Asked(4, Ok(Record(4, 0, false, 0, None, 1_000_000))),
    Asked(5, Ok(Record(5, 0, false, 0, None, 1_000_000))),
    Asked(6, Ok(Record(6, 0, false, 0, None, 1_000_000))),
    Asked(7, Ok(Record(7, 0, false, 0, None, 1_000_000))),
];

const HIGH: [Asked; 1] = [Asked(0, Ok(Record(0, 5, false, 0, None, 1_000_000)))];

// What should be told of low and of high.
const BOTH: (Comes, Comes) = (
    Comes(&LOW, Money(42_525, 500_000, 21_263)),
    Comes(&HIGH, Money(0, 1_000_000, 0)),
);

fn accepted(report: &mut Report<impl Print>, name: &str, entry: &Entry) -> io::Result<()> {
    report.compare(name, entry.number(), 0)
}

fn batch_verdicts(report: &mut Report<impl Print>, batch: &[Entry]) -> io::Result<()> {
    for entry in batch {
        accepted(report, "verdict in a batch", entry)?;
    }
    Ok(())
}

fn verdicts(report: &mut Report<impl Print>, calls: &[Call]) -> io::Result<()> {
    for call in calls {
        match call {
            Call::Sample(entry) => accepted(report, "verdict of a sample", entry)?,
            Call::Batch(batch) => batch_verdicts(report, batch)?,
        }
    }
    Ok(())
}

fn calls(heap: Global) -> Result<[Call; 3], AllocError> {
    let batch = entries(heap, &MIDDLE)?;
    Ok([
        Call::Sample(Entry::new(Reading::from(FIRST))),
        Call::Batch(batch),
        Call::Sample(Entry::new(Reading::from(LAST))),
    ])
}

fn in_one_call(report: &mut Report<impl Print + AllocGlobal>) -> io::Result<()> {
    report.title("The worked block, in one call")?;
    let mut calls = calls(report.runtime().alloc())?;
    let block = settle(usual(20, 5, FIFTY, NOT_HELD)?, Containment, &mut calls);
    verdicts(report, &calls)?;
    show_both(report, &block, BOTH)
}

fn call_by_call(report: &mut Report<impl Print + AllocGlobal>) -> io::Result<()> {
    report.title("The worked block, call by call")?;
    let mut account = Account::open(usual(20, 5, FIFTY, NOT_HELD)?, Containment);
    walk(report, &mut account, &FIRST_TWO)?;
    let mut batch = entries(report.runtime().alloc(), &LAST_THREE)?;
    report.compare("accepted of a batch of three", account.batch(&mut batch), 3)?;
    show_both(report, &account.close(), BOTH)
}

pub fn show(report: &mut Report<impl Print + AllocGlobal>) -> io::Result<()> {
    in_one_call(report)?;
    call_by_call(report)
}
