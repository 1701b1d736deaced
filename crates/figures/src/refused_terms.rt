// Terms on both sides of each limit.
use crate::cases::{Case, refusals};
use crate::inputs::{FIFTY, Input, NOT_HELD};
use report::Report;
use rules::{TermsFault, TermsInput, check_terms};
use std::io;

const QUANTITIES: [Case<Input>; 10] = [
    Case(Input(20, 5, 30_000, 70_000, NOT_HELD, NOT_HELD), Some(1)),
    Case(Input(20, 5, 30_000, 70_000, (1, 0), NOT_HELD), None),
    Case(Input(20, 5, 30_000, 70_000, NOT_HELD, (1, 0)), None),
    Case(Input(20, 5, 30_000, 70_000, (-1, 0), NOT_HELD), Some(2)),
    Case(Input(20, 5, 30_000, 70_000, (100, 0), NOT_HELD), None),
    Case(Input(20, 5, 30_000, 70_000, (101, 0), NOT_HELD), Some(2)),
    Case(Input(20, 5, 30_000, 70_000, FIFTY, (-1, 0)), Some(2)),
    Case(Input(20, 5, 30_000, 70_000, FIFTY, (100, 0)), None),
    Case(Input(20, 5, 30_000, 70_000, FIFTY, (101, 0)), Some(2)),
    Case(
        Input(20, 5, 30_000, 70_000, (i64::MIN, 0), (i64::MAX, 0)),
        Some(2),
    ),
];

const PRICES: [Case<Input>; 7] = [
    Case(Input(20, 5, 30_000, 70_000, (50, -1), NOT_HELD), Some(3)),
    Case(Input(20, 5, 30_000, 70_000, (50, 0), NOT_HELD), None),
    Case(Input(20, 5, 30_000, 70_000, (50, 99_999), NOT_HELD), None),
    Case(
        Input(20, 5, 30_000, 70_000, (50, 100_000), NOT_HELD),
        Some(3),
    ),
    Case(Input(20, 5, 30_000, 70_000, FIFTY, (0, -1)), Some(3)),
    Case(Input(20, 5, 30_000, 70_000, FIFTY, (0, 99_999)), None),
    Case(Input(20, 5, 30_000, 70_000, FIFTY, (0, 100_000)), Some(3)),
];

const TOLERANCES: [Case<Input>; 7] = [
    Case(Input(20, 5, 999, 70_000, FIFTY, NOT_HELD), Some(4)),
    Case(Input(20, 5, 1_000, 70_000, FIFTY, NOT_HELD), None),
    Case(Input(20, 5, 30_000, 30_000, FIFTY, NOT_HELD), Some(5)),
    Case(Input(20, 5, 30_000, 30_001, FIFTY, NOT_HELD), None),
    Case(Input(20, 5, 30_000, 1_000_000, FIFTY, NOT_HELD), None),
    Case(Input(20, 5, 30_000, 1_000_001, FIFTY, NOT_HELD), Some(5)),
    Case(Input(20, 5, i64::MAX, i64::MAX, FIFTY, NOT_HELD), Some(5)),
];

const LENGTHS: [Case<Input>; 9] = [
    Case(Input(15, 5, 30_000, 70_000, FIFTY, NOT_HELD), Some(6)),
    Case(Input(16, 5, 30_000, 70_000, FIFTY, NOT_HELD), None),
    Case(Input(36_000, 5, 30_000, 70_000, FIFTY, NOT_HELD), None),
    Case(Input(36_001, 5, 30_000, 70_000, FIFTY, NOT_HELD), Some(6)),
    Case(Input(20, 0, 30_000, 70_000, FIFTY, NOT_HELD), Some(7)),
    Case(Input(20, 1, 30_000, 70_000, FIFTY, NOT_HELD), None),
    Case(Input(20, 20, 30_000, 70_000, FIFTY, NOT_HELD), None),
    Case(Input(20, 21, 30_000, 70_000, FIFTY, NOT_HELD), Some(7)),
    Case(
        Input(20, i64::MIN, 30_000, 70_000, FIFTY, NOT_HELD),
        Some(7),
    ),
];

const SEVERAL_FIT: [Case<Input>; 7] = [
    Case(Input(0, 0, 0, 0, (0, -1), (0, -1)), Some(1)),
    Case(Input(0, 0, 0, 0, (-1, -1), (-1, -1)), Some(2)),
    Case(Input(0, 0, 0, 0, (50, -1), NOT_HELD), Some(3)),
    Case(Input(0, 0, 0, 0, FIFTY, NOT_HELD), Some(4)),
    Case(Input(0, 0, 1_000, 1_000, FIFTY, NOT_HELD), Some(5)),
    Case(Input(15, 16, 30_000, 70_000, FIFTY, NOT_HELD), Some(6)),
    Case(Input(36_001, 0, 30_000, 70_000, FIFTY, NOT_HELD), Some(6)),
];

// The number of the refusal of terms.
fn number(input: Input) -> io::Result<Option<u32>> {
    let refused = check_terms(&TermsInput::from(input)).err();
    Ok(refused.map(TermsFault::number))
}

pub fn show(report: &mut Report<impl Print>) -> io::Result<()> {
    report.title("Terms: refusals 1 to 7, 0 for accepted")?;
    for table in [&QUANTITIES[..], &PRICES, &TOLERANCES, &LENGTHS] {
        refusals(report, table, number)?;
    }
    report.title("Terms: the first of several refusals that fit")?;
    refusals(report, &SEVERAL_FIT, number)
}
