// Bounds and errors over runs of readings at every tick.
use crate::inputs::{Contracted, FIFTY, NOT_HELD, Stretch, THIRTY, usual};
use crate::shown::Accepted;
use crate::steps::{Step, walk};
use account::Account;
use curve::{Containment, Point, Points};
use report::Report;
use std::io;

// Containment's points, and 111,000 parts at 350 mHz. Containment itself tells 111,000 parts at no whole mHz.
const HALFWAY: [Point; 4] = [
    Point {
        deviation: 15,
        parts: 0,
    },
    Point {
        deviation: 200,
        parts: 11_100,
    },
    Point {
        deviation: 350,
        parts: 111_000,
    },
    Point {
        deviation: 500,
        parts: 222_000,
    },
];

// Both bounds are -15,000 kW, and the response is 3,000 kW above them: a tenth of 30,000 kW.
const ON_HALFWAY: [Step; 1] = [Step(
    Stretch((0, 25), 50_350, -12_000, 0, 3),
    Ok(Accepted(0, (-111_000, -111_000), Some(0), Some(100_000))),
)];

// A run on containment with periods of 40 ticks.
#[derive(Clone, Copy)]
struct Run {
    title: &'static str,
    low: Contracted,
    high: Contracted,
    steps: &'static [Step],
}

const RUNS: [Run; 10] = [
    Run {
        title: "The upper bound alone at -111000 parts, on containment",
        low: FIFTY,
        high: THIRTY,
        steps: &UPPER_ALONE,
    },
    Run {
        title: "Low only, always 50000 mHz",
        low: FIFTY,
        high: NOT_HELD,
        steps: &GRACE_ENDS_LOW,
    },
    Run {
        title: "High only, always 50000 mHz",
        low: NOT_HELD,
        high: THIRTY,
        steps: &GRACE_ENDS_HIGH,
    },
    Run {
        title: "Low only, 50000 mHz to tick 99, then 49500 mHz",
        low: FIFTY,
        high: NOT_HELD,
        steps: &LOWER_RISES,
    },
    Run {
        title: "Both, 50000 mHz from tick 79 to 99, then 49500 mHz",
        low: FIFTY,
        high: THIRTY,
        steps: &LOWER_RISES_BOTH,
    },
    Run {
        title: "A response on a bound is inside",
        low: FIFTY,
        high: NOT_HELD,
        steps: &ON_A_BOUND,
    },
    Run {
        title: "The largest error",
        low: (1, 1),
        high: NOT_HELD,
        steps: &LARGEST,
    },
    Run {
        title: "A gap opens grace",
        low: FIFTY,
        high: NOT_HELD,
        steps: &GAP,
    },
    Run {
        title: "Low only: low comes back and opens grace",
        low: FIFTY,
        high: NOT_HELD,
        steps: &LOW_BACK,
    },
    Run {
        title: "Both: either comes back and opens grace",
        low: FIFTY,
        high: THIRTY,
        steps: &EITHER_BACK,
    },
];

const UPPER_ALONE: [Step; 2] = [
    Step(
        Stretch((0, 25), 50_350, -12_000, 0, 3),
        Ok(Accepted(0, (-116_550, -111_000), Some(0), Some(100_000))),
    ),
    Step(
        Stretch((26, 26), 50_350, -12_000, 0, 3),
        Ok(Accepted(0, (-116_550, -116_550), Some(0), Some(125_000))),
    ),
];

const GRACE_ENDS_LOW: [Step; 3] = [
    Step(
        Stretch((0, 10), 50_000, 0, 0, 1),
        Ok(Accepted(0, (0, 222_000), Some(0), None)),
    ),
    Step(
        Stretch((11, 11), 50_000, 0, 0, 1),
        Ok(Accepted(0, (0, 199_800), Some(0), None)),
    ),
    Step(
        Stretch((12, 20), 50_000, 0, 0, 1),
        Ok(Accepted(0, (0, 0), Some(0), None)),
    ),
];

const GRACE_ENDS_HIGH: [Step; 3] = [
    Step(
        Stretch((0, 10), 50_000, 0, 0, 2),
        Ok(Accepted(0, (-222_000, 0), None, Some(0))),
    ),
    Step(
        Stretch((11, 11), 50_000, 0, 0, 2),
        Ok(Accepted(0, (-199_800, 0), None, Some(0))),
    ),
    Step(
        Stretch((12, 20), 50_000, 0, 0, 2),
        Ok(Accepted(0, (0, 0), None, Some(0))),
    ),
];

const LOWER_RISES: [Step; 5] = [
    Step(
        Stretch((0, 99), 50_000, 0, 0, 1),
        Ok(Accepted(2, (0, 0), Some(0), None)),
    ),
    Step(
        Stretch((100, 100), 49_500, 50_000, 0, 1),
        Ok(Accepted(2, (0, 222_000), Some(0), None)),
    ),
    Step(
        Stretch((101, 109), 49_500, 50_000, 0, 1),
        Ok(Accepted(2, (0, 222_000), Some(0), None)),
    ),
    Step(
        Stretch((110, 110), 49_500, 50_000, 0, 1),
        Ok(Accepted(2, (22_200, 222_000), Some(0), None)),
    ),
    Step(
        Stretch((111, 119), 49_500, 50_000, 0, 1),
        Ok(Accepted(2, (222_000, 222_000), Some(0), None)),
    ),
];

const LOWER_RISES_BOTH: [Step; 4] = [
    Step(
        Stretch((79, 99), 50_000, 0, 0, 3),
        Ok(Accepted(2, (0, 0), Some(0), Some(0))),
    ),
    Step(
        Stretch((100, 109), 49_500, 50_000, 0, 3),
        Ok(Accepted(2, (0, 222_000), Some(0), Some(0))),
    ),
    Step(
        Stretch((110, 110), 49_500, 50_000, 0, 3),
        Ok(Accepted(2, (22_200, 222_000), Some(0), Some(0))),
    ),
    Step(
        Stretch((111, 119), 49_500, 50_000, 0, 3),
        Ok(Accepted(2, (222_000, 222_000), Some(0), Some(0))),
    ),
];

// 1 kW beyond a bound is 20 millionths of 50 MW.
const ON_A_BOUND: [Step; 5] = [
    Step(
        Stretch((0, 0), 50_000, 50_000, 0, 1),
        Ok(Accepted(0, (0, 222_000), Some(0), None)),
    ),
    Step(
        Stretch((1, 1), 50_000, 50_001, 0, 1),
        Ok(Accepted(0, (0, 222_000), Some(20), None)),
    ),
    Step(
        Stretch((2, 2), 50_000, 0, 0, 1),
        Ok(Accepted(0, (0, 222_000), Some(0), None)),
    ),
    Step(
        Stretch((3, 3), 50_000, -1, 0, 1),
        Ok(Accepted(0, (0, 222_000), Some(20), None)),
    ),
    Step(
        Stretch((4, 4), 50_000, -1, -1, 1),
        Ok(Accepted(0, (0, 222_000), Some(0), None)),
    ),
];

const LARGEST: [Step; 2] = [
    Step(
        Stretch((0, 19), 49_500, 1_000, 0, 1),
        Ok(Accepted(0, (199_800, 222_000), Some(0), None)),
    ),
    Step(
        Stretch((20, 20), 49_500, -999_999, 999_999, 1),
        Ok(Accepted(0, (222_000, 222_000), Some(2_000_998_000), None)),
    ),
];

// There is no reading at tick 21.
const GAP: [Step; 4] = [
    Step(
        Stretch((0, 20), 50_000, 0, 0, 1),
        Ok(Accepted(0, (0, 0), Some(0), None)),
    ),
    Step(
        Stretch((22, 22), 50_000, 0, 0, 1),
        Ok(Accepted(0, (0, 222_000), Some(0), None)),
    ),
    Step(
        Stretch((23, 32), 50_000, 0, 0, 1),
        Ok(Accepted(0, (0, 222_000), Some(0), None)),
    ),
    Step(
        Stretch((33, 33), 50_000, 0, 0, 1),
        Ok(Accepted(0, (0, 199_800), Some(0), None)),
    ),
];

// Low is not available at ticks 21 and 22.
const LOW_BACK: [Step; 4] = [
    Step(
        Stretch((0, 20), 50_000, 0, 0, 1),
        Ok(Accepted(0, (0, 0), Some(0), None)),
    ),
    Step(
        Stretch((21, 21), 50_000, 0, 0, 0),
        Ok(Accepted(0, (0, 0), None, None)),
    ),
    Step(
        Stretch((22, 22), 50_000, 0, 0, 2),
        Ok(Accepted(0, (0, 0), None, None)),
    ),
    Step(
        Stretch((23, 23), 50_000, 0, 0, 1),
        Ok(Accepted(0, (0, 222_000), Some(0), None)),
    ),
];

// High is not available at tick 21, and low is not at tick 22.
const EITHER_BACK: [Step; 4] = [
    Step(
        Stretch((0, 20), 50_000, 0, 0, 3),
        Ok(Accepted(0, (0, 0), Some(0), Some(0))),
    ),
    Step(
        Stretch((21, 21), 50_000, 0, 0, 1),
        Ok(Accepted(0, (0, 0), Some(0), None)),
    ),
    Step(
        Stretch((22, 22), 50_000, 0, 0, 2),
        Ok(Accepted(0, (-222_000, 222_000), None, Some(0))),
    ),
    Step(
        Stretch((23, 23), 50_000, 0, 0, 3),
        Ok(Accepted(0, (-222_000, 222_000), Some(0), Some(0))),
    ),
];

fn on_halfway(report: &mut Report<impl Print>) -> io::Result<()> {
    report.title("50 MW low and 30 MW high, both bounds -111000 parts, a response of -12000 kW")?;
    let mut curve = Points::new();
    report.compare(
        "points loaded",
        curve.load(&HALFWAY, 22_200, 10).is_ok(),
        true,
    )?;
    let mut account = Account::open(usual(40, 1, FIFTY, THIRTY)?, curve);
    walk(report, &mut account, &ON_HALFWAY)
}

fn on_containment(report: &mut Report<impl Print>, run: Run) -> io::Result<()> {
    let Run {
        title,
        low,
        high,
        steps,
    } = run;
    report.title(title)?;
    let mut account = Account::open(usual(40, 1, low, high)?, Containment);
    walk(report, &mut account, steps)
}

pub fn show(report: &mut Report<impl Print>) -> io::Result<()> {
    on_halfway(report)?;
    for run in RUNS {
        on_containment(report, run)?;
    }
    Ok(())
}
