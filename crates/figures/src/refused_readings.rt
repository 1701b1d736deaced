// Readings on both sides of each limit.
use crate::cases::{Case, refusals};
use crate::inputs::{FIFTY, NOT_HELD, Row, usual};
use account::Account;
use curve::Containment;
use report::Report;
use rules::{Reading, SampleFault};
use std::io;

const THE_FIRST: [Case<Row>; 6] = [
    Case(Row(-1, 50_000, 0, 0, 1), Some(18)),
    Case(Row(0, 50_000, 0, 0, 1), None),
    Case(Row(159, 50_000, 0, 0, 1), None),
    Case(Row(160, 50_000, 0, 0, 1), Some(18)),
    Case(Row(i64::MIN, 50_000, 0, 0, 1), Some(18)),
    Case(Row(i64::MAX, 50_000, 0, 0, 1), Some(18)),
];

const AFTER_TICK_5: [Case<Row>; 23] = [
    Case(Row(6, 39_999, 0, 0, 1), Some(13)),
    Case(Row(6, 40_000, 0, 0, 1), None),
    Case(Row(6, 60_000, 0, 0, 1), None),
    Case(Row(6, 60_001, 0, 0, 1), Some(13)),
    Case(Row(6, 50_000, -1_000_000, 0, 1), Some(14)),
    Case(Row(6, 50_000, -999_999, 0, 1), None),
    Case(Row(6, 50_000, 999_999, 0, 1), None),
    Case(Row(6, 50_000, 1_000_000, 0, 1), Some(14)),
    Case(Row(6, 50_000, i64::MAX, 0, 1), Some(14)),
    Case(Row(6, 50_000, 0, -1_000_000, 1), Some(15)),
    Case(Row(6, 50_000, 0, -999_999, 1), None),
    Case(Row(6, 50_000, 0, 999_999, 1), None),
    Case(Row(6, 50_000, 0, 1_000_000, 1), Some(15)),
    Case(Row(6, 50_000, 0, i64::MIN, 1), Some(15)),
    Case(Row(6, 50_000, 0, 0, -1), Some(16)),
    Case(Row(6, 50_000, 0, 0, 0), None),
    Case(Row(6, 50_000, 0, 0, 3), None),
    Case(Row(6, 50_000, 0, 0, 4), Some(16)),
    Case(Row(4, 50_000, 0, 0, 1), Some(17)),
    Case(Row(5, 50_000, 0, 0, 1), Some(17)),
    Case(Row(6, 50_000, 0, 0, 1), None),
    Case(Row(159, 50_000, 0, 0, 1), None),
    Case(Row(160, 50_000, 0, 0, 1), Some(18)),
];

const SEVERAL_FIT: [Case<Row>; 5] = [
    Case(Row(-1, 39_999, 1_000_000, 1_000_000, 4), Some(13)),
    Case(Row(-1, 50_000, 1_000_000, 1_000_000, 4), Some(14)),
    Case(Row(-1, 50_000, 0, 1_000_000, 4), Some(15)),
    Case(Row(-1, 50_000, 0, 0, 4), Some(16)),
    Case(Row(-1, 50_000, 0, 0, 1), Some(17)),
];

// The number of the refusal of a reading that is handed in after these.
fn after(rows: &[Row], row: Row) -> io::Result<Option<u32>> {
    let mut account = Account::open(usual(20, 5, FIFTY, NOT_HELD)?, Containment);
    for row in rows {
        let _ = account.sample(&Reading::from(*row));
    }
    let refused = account.sample(&Reading::from(row)).err();
    Ok(refused.map(SampleFault::number))
}

fn after_tick_5(row: Row) -> io::Result<Option<u32>> {
    after(&[Row(5, 50_000, 0, 0, 1)], row)
}

pub fn show(report: &mut Report<impl Print>) -> io::Result<()> {
    report.title("The first reading, with L = 20: refusal 18, 0 for accepted")?;
    refusals(report, &THE_FIRST, |row| after(&[], row))?;
    report.title("Readings after tick 5, with L = 20: refusals 13 to 18, 0 for accepted")?;
    refusals(report, &AFTER_TICK_5, after_tick_5)?;
    report.title("Readings after tick 5: the first of several refusals that fit")?;
    refusals(report, &SEVERAL_FIT, after_tick_5)
}
