// What batches, refused readings and closed blocks tell.
use crate::asked::{Asked, Comes, low, show_both};
use crate::cases::Case;
use crate::inputs::{Contracted, FIFTY, NOT_HELD, Row, Stretch, THIRTY, entries, hand_in, usual};
use crate::shown::{Accepted, Money, Record, Refused};
use crate::steps::{Step, walk};
use account::{Account, Entry};
use curve::Containment;
use report::Report;
use rules::Reading;
use std::io;

const BATCH: [Case<Row>; 8] = [
    Case(Row(0, 50_000, 0, 0, 1), None),
    Case(Row(1, 39_999, 0, 0, 1), Some(13)),
    Case(Row(1, 50_000, 1_000_000, 0, 1), Some(14)),
    Case(Row(1, 50_000, 0, 1_000_000, 1), Some(15)),
    Case(Row(1, 50_000, 0, 0, 4), Some(16)),
    Case(Row(0, 50_000, 0, 0, 1), Some(17)),
    Case(Row(160, 50_000, 0, 0, 1), Some(18)),
    Case(Row(1, 50_000, 0, 0, 1), None),
];

// What an entry tells as a number is 0 where its reading is accepted.
fn verdicts(report: &mut Report<impl Print>, batch: &[Entry]) -> io::Result<()> {
    for (entry, Case(_, should_be)) in batch.iter().zip(&BATCH) {
        report.compare("verdict", entry.number(), should_be.unwrap_or(0))?;
    }
    Ok(())
}

fn unchanged(batch: &[Entry]) -> usize {
    batch
        .iter()
        .zip(&BATCH)
        .filter(|(entry, case)| entry.reading == Reading::from(case.0))
        .count()
}

fn batches(report: &mut Report<impl Print + AllocGlobal>) -> io::Result<()> {
    report.title("A batch with a reading for each refusal, and a batch without readings")?;
    let mut account = Account::open(usual(20, 1, FIFTY, NOT_HELD)?, Containment);
    let mut batch = entries(report.runtime().alloc(), &BATCH.map(|case| case.0))?;
    report.compare("accepted", account.batch(&mut batch), 2)?;
    verdicts(report, &batch)?;
    report.compare("readings unchanged", unchanged(&batch), 8)?;
    report.compare("accepted of none", account.batch(&mut []), 0)?;
    low(&account.close()).show_records(
        report,
        &[Asked(0, Ok(Record(0, 2, true, 0, None, 1_000_000)))],
    )
}

// Had a refused reading been taken in, the upper bound would not be 0 at tick 22, or tick 22 would be refused.
const AMID_REFUSALS: [Step; 10] = [
    Step(
        Stretch((0, 20), 50_000, 0, 0, 1),
        Ok(Accepted(0, (0, 0), Some(0), None)),
    ),
    Step(
        Stretch((21, 21), 50_000, 2_000, 0, 1),
        Ok(Accepted(0, (0, 0), Some(40_000), None)),
    ),
    Step(Stretch((22, 22), 39_999, 0, 0, 1), Err(Refused(13))),
    Step(Stretch((22, 22), 49_000, 1_000_000, 0, 1), Err(Refused(14))),
    Step(
        Stretch((22, 22), 49_000, 0, -1_000_000, 1),
        Err(Refused(15)),
    ),
    Step(Stretch((22, 22), 49_000, 0, 0, 4), Err(Refused(16))),
    Step(Stretch((21, 21), 49_000, 0, 0, 0), Err(Refused(17))),
    Step(Stretch((320, 320), 49_000, 0, 0, 0), Err(Refused(18))),
    Step(
        Stretch((22, 22), 50_000, 2_000, 0, 1),
        Ok(Accepted(0, (0, 0), Some(40_000), None)),
    ),
    Step(
        Stretch((23, 24), 50_000, 2_000, 0, 1),
        Ok(Accepted(0, (0, 0), Some(40_000), None)),
    ),
];

fn refused_readings(report: &mut Report<impl Print>) -> io::Result<()> {
    report.title("A refused reading changes nothing")?;
    let mut account = Account::open(usual(40, 1, FIFTY, NOT_HELD)?, Containment);
    walk(report, &mut account, &AMID_REFUSALS)?;
    let record = Record(0, 25, true, 40_000, Some(24), 750_000);
    low(&account.close()).show_records(report, &[Asked(0, Ok(record))])
}

const UNREAD: [Asked; 8] = [
    Asked(i64::MIN, Err(Refused(26))),
    Asked(-1, Err(Refused(26))),
    Asked(0, Ok(Record(0, 0, false, 0, None, 1_000_000))),
    Asked(1, Ok(Record(1, 0, false, 0, None, 1_000_000))),
    Asked(6, Ok(Record(6, 0, false, 0, None, 1_000_000))),
    Asked(7, Ok(Record(7, 0, false, 0, None, 1_000_000))),
    Asked(8, Err(Refused(26))),
    Asked(i64::MAX, Err(Refused(26))),
];

fn no_readings(report: &mut Report<impl Print>) -> io::Result<()> {
    report.title("A block without readings, and refusal 26")?;
    let block = Account::open(usual(20, 1, FIFTY, THIRTY)?, Containment).close();
    let nothing = Money(0, 1_000_000, 0);
    show_both(
        report,
        &block,
        (Comes(&UNREAD, nothing), Comes(&[], nothing)),
    )
}

const LOW_ERRING: [Asked; 1] = [Asked(0, Ok(Record(0, 5, true, 600_000, Some(3), 0)))];

const PAYABLE: [Asked; 1] = [Asked(0, Ok(Record(0, 5, true, 0, None, 1_000_000)))];

const NOT_PAYABLE: [Asked; 1] = [Asked(0, Ok(Record(0, 5, false, 0, None, 1_000_000)))];

const TOO_FEW: [Asked; 1] = [Asked(0, Ok(Record(0, 4, false, 0, None, 1_000_000)))];

const HIGH_MISSING_ONCE: [Stretch; 3] = [
    Stretch((0, 1), 50_000, 0, 0, 3),
    Stretch((2, 2), 50_000, 0, 0, 1),
    Stretch((3, 4), 50_000, 0, 0, 3),
];

// A period under 50 MW low: what is contracted high, the readings, and what should be told of low and of high.
#[derive(Clone, Copy)]
struct Period {
    title: &'static str,
    high: Contracted,
    readings: &'static [Stretch],
    should_be: (Comes, Comes),
}

// A response of -30,000 kW errs for low.
const HIGH_NOT_HELD: Period = Period {
    title: "High is not held, and available at every reading",
    high: NOT_HELD,
    readings: &[Stretch((0, 4), 50_000, -30_000, 0, 3)],
    should_be: (
        Comes(&LOW_ERRING, Money(42_525, 0, 0)),
        Comes(&PAYABLE, Money(0, 1_000_000, 0)),
    ),
};

const NOT_THROUGHOUT: Period = Period {
    title: "Both held, and high not available at one of five readings",
    high: THIRTY,
    readings: &HIGH_MISSING_ONCE,
    should_be: (
        Comes(&PAYABLE, Money(42_525, 1_000_000, 42_525)),
        Comes(&NOT_PAYABLE, Money(0, 1_000_000, 0)),
    ),
};

fn one_period(report: &mut Report<impl Print>, period: Period) -> io::Result<()> {
    report.title(period.title)?;
    let mut account = Account::open(usual(20, 5, FIFTY, period.high)?, Containment);
    hand_in(&mut account, period.readings);
    show_both(report, &account.close(), period.should_be)
}

fn least_readings(report: &mut Report<impl Print>) -> io::Result<()> {
    report.title("Four readings and five, where a payable period needs five")?;
    for (last, should_be) in [(3, TOO_FEW), (4, PAYABLE)] {
        let mut account = Account::open(usual(20, 5, FIFTY, NOT_HELD)?, Containment);
        hand_in(&mut account, &[Stretch((0, last), 50_000, 0, 0, 1)]);
        low(&account.close()).show_records(report, &should_be)?;
    }
    Ok(())
}

pub fn show(report: &mut Report<impl Print + AllocGlobal>) -> io::Result<()> {
    batches(report)?;
    refused_readings(report)?;
    no_readings(report)?;
    one_period(report, HIGH_NOT_HELD)?;
    least_readings(report)?;
    one_period(report, NOT_THROUGHOUT)
}
