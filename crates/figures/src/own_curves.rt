// Accounts on curves of this program's own: 50 MW low at 1,701 pence, 30 MW high at 1,000 pence.
use crate::asked::{Comes, show_both};
use crate::asymmetric_curve::Asymmetric;
use crate::flat_curve::Flat;
use crate::inputs::{FIFTY, Stretch, THIRTY, usual};
use crate::shown::{Accepted, Money};
use crate::steps::{Step, walk};
use crate::told::{Told, tells};
use account::Account;
use curve::Curve;
use report::Report;
use std::io;

const FLAT: [Told; 3] = [Told(40_000, 0), Told(50_000, 0), Told(60_000, 0)];

// Grace lasts two readings; then the bounds come to 0 by the ramp, whatever the frequency.
const ON_FLAT: [Step; 8] = [
    Step(
        Stretch((0, 0), 50_000, 0, 0, 3),
        Ok(Accepted(0, (-1_000, 1_000), Some(0), Some(0))),
    ),
    Step(
        Stretch((1, 1), 40_000, 50_000, 0, 3),
        Ok(Accepted(0, (-1_000, 1_000), Some(0), Some(0))),
    ),
    Step(
        Stretch((2, 2), 40_000, 50_000, 0, 3),
        Ok(Accepted(0, (-750, 750), Some(250_000), Some(0))),
    ),
    Step(
        Stretch((3, 3), 60_000, -15_000, 0, 3),
        Ok(Accepted(0, (-500, 500), Some(0), Some(0))),
    ),
    Step(
        Stretch((4, 4), 60_000, -15_000, 0, 3),
        Ok(Accepted(0, (-250, 250), Some(0), Some(250_000))),
    ),
    Step(
        Stretch((5, 5), 40_000, 3_000, 0, 3),
        Ok(Accepted(0, (0, 0), Some(60_000), Some(0))),
    ),
    Step(
        Stretch((6, 8), 60_000, 3_000, 0, 3),
        Ok(Accepted(0, (0, 0), Some(60_000), Some(0))),
    ),
    Step(
        Stretch((9, 9), 50_000, -300, 0, 3),
        Ok(Accepted(0, (0, 0), Some(0), Some(10_000))),
    ),
];

const ASYMMETRIC: [Told; 7] = [
    Told(40_000, 1_000),
    Told(49_499, 1_000),
    Told(49_500, 0),
    Told(50_000, 0),
    Told(50_300, 0),
    Told(50_301, -500),
    Told(60_000, -500),
];

// Grace lasts one reading, and the window is the reading alone.
const ON_ASYMMETRIC: [Step; 12] = [
    Step(
        Stretch((0, 0), 50_000, 0, 0, 3),
        Ok(Accepted(0, (-1_000, 1_000), Some(0), Some(0))),
    ),
    Step(
        Stretch((1, 1), 49_499, 50_000, 0, 3),
        Ok(Accepted(0, (-750, 1_000), Some(0), Some(0))),
    ),
    Step(
        Stretch((2, 2), 49_499, 50_000, 0, 3),
        Ok(Accepted(0, (-500, 1_000), Some(0), Some(0))),
    ),
    Step(
        Stretch((3, 3), 49_500, 50_000, 0, 3),
        Ok(Accepted(0, (-250, 750), Some(250_000), Some(0))),
    ),
    Step(
        Stretch((4, 4), 50_300, 0, 0, 3),
        Ok(Accepted(0, (0, 500), Some(0), Some(0))),
    ),
    Step(
        Stretch((5, 5), 50_301, -15_000, 0, 3),
        Ok(Accepted(0, (-500, 250), Some(0), Some(0))),
    ),
    Step(
        Stretch((6, 6), 50_301, -15_000, 0, 3),
        Ok(Accepted(0, (-500, 0), Some(0), Some(0))),
    ),
    Step(
        Stretch((7, 7), 50_301, -15_000, 0, 3),
        Ok(Accepted(0, (-500, -250), Some(0), Some(0))),
    ),
    Step(
        Stretch((8, 8), 50_301, -15_000, 0, 3),
        Ok(Accepted(0, (-500, -500), Some(0), Some(0))),
    ),
    Step(
        Stretch((9, 12), 50_301, -13_500, 0, 3),
        Ok(Accepted(0, (-500, -500), Some(0), Some(50_000))),
    ),
    Step(
        Stretch((13, 13), 40_000, -13_500, 0, 3),
        Ok(Accepted(0, (-250, 1_000), Some(0), Some(200_000))),
    ),
    Step(
        Stretch((14, 14), 60_000, 50_000, 0, 3),
        Ok(Accepted(0, (-500, 750), Some(250_000), Some(0))),
    ),
];

// What a curve tells, what readings are answered on it, and what low and high come to then.
fn on<C: Curve + Drop>(
    report: &mut Report<impl Print>,
    title: &str,
    curve: C,
    told: &[Told],
    steps: &[Step],
    (low, high): (Money, Money),
) -> io::Result<()> {
    report.title(title)?;
    tells(report, &curve, told)?;
    let mut account = Account::open(usual(20, 1, FIFTY, THIRTY)?, curve);
    walk(report, &mut account, steps)?;
    show_both(
        report,
        &account.close(),
        (Comes(&[], low), Comes(&[], high)),
    )
}

pub fn show(report: &mut Report<impl Print>) -> io::Result<()> {
    on(
        report,
        "A curve that calls for no response: full 1000, ramp 250, lag 1",
        Flat,
        &FLAT,
        &ON_FLAT,
        (
            Money(42_525, 250_000, 10_631),
            Money(15_000, 1_000_000, 15_000),
        ),
    )?;
    on(
        report,
        "A curve that is not symmetric: full 1000, ramp 250, lag 0",
        Asymmetric,
        &ASYMMETRIC,
        &ON_ASYMMETRIC,
        (
            Money(42_525, 1_000_000, 42_525),
            Money(15_000, 500_000, 7_500),
        ),
    )
}
