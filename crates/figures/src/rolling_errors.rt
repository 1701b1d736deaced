// Where rolling errors start again, and which tick E goes with.
use crate::asked::{Asked, low};
use crate::inputs::{FIFTY, NOT_HELD, Stretch, hand_in, usual};
use crate::shown::Record;
use account::Account;
use curve::Containment;
use report::Report;
use rules::Terms;
use std::io;

// All readings are in grace, where the upper bound is 50,000 kW: 52,500 kW err by 50,000 millionths, 53,000 kW by 60,000 and
// 53,500 kW by 70,000.
const THREE: Stretch = Stretch((0, 2), 50_000, 52_500, 0, 1);

const FOUR: Stretch = Stretch((0, 3), 50_000, 52_500, 0, 1);

const NOT_AVAILABLE: Stretch = Stretch((3, 3), 50_000, 52_500, 0, 0);

const THREE_MORE: Stretch = Stretch((4, 6), 50_000, 52_500, 0, 1);

const FOUR_MORE: Stretch = Stretch((4, 7), 50_000, 52_500, 0, 1);

// The stretches, and the low record that is asked for then.
#[derive(Clone, Copy)]
struct Case(&'static str, &'static [Stretch], Asked);

const RESTARTS: [Case; 9] = [
    Case(
        "three",
        &[THREE],
        Asked(0, Ok(Record(0, 3, true, 0, None, 1_000_000))),
    ),
    Case(
        "four",
        &[FOUR],
        Asked(0, Ok(Record(0, 4, true, 50_000, Some(3), 500_000))),
    ),
    Case(
        "three, a gap, three",
        &[THREE, THREE_MORE],
        Asked(0, Ok(Record(0, 6, true, 0, None, 1_000_000))),
    ),
    Case(
        "three, a gap, four",
        &[THREE, FOUR_MORE],
        Asked(0, Ok(Record(0, 7, true, 50_000, Some(7), 500_000))),
    ),
    Case(
        "three, one not available, three",
        &[THREE, NOT_AVAILABLE, THREE_MORE],
        Asked(0, Ok(Record(0, 7, false, 0, None, 1_000_000))),
    ),
    Case(
        "three, one not available, four",
        &[THREE, NOT_AVAILABLE, FOUR_MORE],
        Asked(0, Ok(Record(0, 8, false, 50_000, Some(7), 500_000))),
    ),
    Case(
        "three before a period's edge, four after it",
        &[ACROSS],
        Asked(0, Ok(Record(0, 3, true, 0, None, 1_000_000))),
    ),
    Case(
        "three before a period's edge, four after it",
        &[ACROSS],
        Asked(1, Ok(Record(1, 4, true, 50_000, Some(23), 500_000))),
    ),
    Case(
        "three before a period's edge, three after it",
        &[ACROSS_SHORT],
        Asked(1, Ok(Record(1, 3, true, 0, None, 1_000_000))),
    ),
];

const ACROSS: Stretch = Stretch((17, 23), 50_000, 52_500, 0, 1);

const ACROSS_SHORT: Stretch = Stretch((17, 22), 50_000, 52_500, 0, 1);

const FIRST_TICKS: [Case; 5] = [
    Case(
        "70000, 50000, 70000, 70000",
        &UNEQUAL,
        Asked(0, Ok(Record(0, 4, true, 50_000, Some(3), 500_000))),
    ),
    Case(
        "six times 50000",
        &[Stretch((0, 5), 50_000, 52_500, 0, 1)],
        Asked(0, Ok(Record(0, 6, true, 50_000, Some(3), 500_000))),
    ),
    Case(
        "four times 50000, once 0, four times 50000",
        &EQUAL_LATER,
        Asked(0, Ok(Record(0, 9, true, 50_000, Some(3), 500_000))),
    ),
    Case(
        "four times 50000, six times 60000",
        &LARGER_LATER,
        Asked(0, Ok(Record(0, 10, true, 60_000, Some(7), 250_000))),
    ),
    Case(
        "four times 60000, six times 50000",
        &SMALLER_LATER,
        Asked(0, Ok(Record(0, 10, true, 60_000, Some(3), 250_000))),
    ),
];

const UNEQUAL: [Stretch; 3] = [
    Stretch((0, 0), 50_000, 53_500, 0, 1),
    Stretch((1, 1), 50_000, 52_500, 0, 1),
    Stretch((2, 3), 50_000, 53_500, 0, 1),
];

const EQUAL_LATER: [Stretch; 3] = [
    FOUR,
    Stretch((4, 4), 50_000, 0, 0, 1),
    Stretch((5, 8), 50_000, 52_500, 0, 1),
];

const LARGER_LATER: [Stretch; 2] = [FOUR, Stretch((4, 9), 50_000, 53_000, 0, 1)];

const SMALLER_LATER: [Stretch; 2] = [
    Stretch((0, 3), 50_000, 53_000, 0, 1),
    Stretch((4, 9), 50_000, 52_500, 0, 1),
];

fn table(report: &mut Report<impl Print>, terms: Terms, cases: &[Case]) -> io::Result<()> {
    for Case(name, stretches, Asked(period, should_be)) in cases {
        let mut account = Account::open(terms, Containment);
        hand_in(&mut account, stretches);
        report.outcome(*name, low(&account.close()).record(*period), *should_be)?;
    }
    Ok(())
}

pub fn show(report: &mut Report<impl Print>) -> io::Result<()> {
    let terms = usual(20, 1, FIFTY, NOT_HELD)?;
    report.title("Erring readings: where the rolling error starts again")?;
    table(report, terms, &RESTARTS)?;
    report.title("Errors: E and the first tick that reached it")?;
    table(report, terms, &FIRST_TICKS)
}
