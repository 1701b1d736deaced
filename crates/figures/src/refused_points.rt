// Points on both sides of each limit, and what a curve tells then.
use crate::cases::{Case, refusal, refusals};
use crate::told::{Told, tells};
use curve::{Curve, Point, Points, PointsFault};
use report::Report;
use std::alloc::{AllocError, Global};
use std::{fmt, io};

// A deviation in mHz and its parts.
type At = (i64, i64);

// Points, a ramp and a lag, in a row without names of its columns, which stays on a line. (Its `Display` is written by hand: no
// derive of the library writes one that is not an error's.)
#[derive(Clone, Copy)]
struct Load(&'static [At], i64, i64);

impl Load {
    // Loads the curve, and tells the number of the refusal.
    fn into(self, curve: &mut Points, heap: Global) -> Result<Option<u32>, AllocError> {
        let Load(table, ramp, lag) = self;
        let points: Vec<Point> = table
            .iter()
            .map(|&(deviation, parts)| Point { deviation, parts })
            .collect(heap)?;
        let refused = curve.load(&points, ramp, lag).err();
        Ok(refused.map(PointsFault::number))
    }
}

impl fmt::Display for Load {
    fn fmt<W: fmt::Write>(&self, f: &mut fmt::Formatter<W>) -> fmt::Result {
        let Load(points, ramp, lag) = *self;
        write!(f, "points {points:?}, ramp {ramp}, lag {lag}")
    }
}

const EIGHT: [At; 8] = [
    (0, 0),
    (1, 10),
    (2, 20),
    (3, 30),
    (4, 40),
    (5, 50),
    (6, 60),
    (7, 70),
];

const NINE: [At; 9] = [
    (0, 0),
    (1, 10),
    (2, 20),
    (3, 30),
    (4, 40),
    (5, 50),
    (6, 60),
    (7, 70),
    (8, 80),
];

const POINTS: [Case<Load>; 18] = [
    Case(Load(&[], 1, 0), Some(8)),
    Case(Load(&[(0, 0)], 1, 0), Some(8)),
    Case(Load(&[(0, 0), (10, 1_000)], 1, 0), None),
    Case(Load(&EIGHT, 1, 0), None),
    Case(Load(&NINE, 1, 0), Some(8)),
    Case(Load(&[(-1, 0), (10, 1_000)], 1, 0), Some(9)),
    Case(Load(&[(0, 0), (10_000, 1_000)], 1, 0), None),
    Case(Load(&[(0, 0), (10_001, 1_000)], 1, 0), Some(9)),
    Case(Load(&[(10, 0), (10, 1_000)], 1, 0), Some(9)),
    Case(Load(&[(9, 0), (10, 1_000)], 1, 0), None),
    Case(Load(&[(0, 1), (10, 1_000)], 1, 0), Some(10)),
    Case(Load(&[(0, -1), (10, 1_000)], 1, 0), Some(10)),
    Case(Load(&[(0, 0), (10, 1_000), (11, 1_000)], 1, 0), None),
    Case(Load(&[(0, 0), (10, 1_000), (11, 999)], 1, 0), Some(10)),
    Case(Load(&[(0, 0), (10, 0)], 1, 0), Some(10)),
    Case(Load(&[(0, 0), (10, 1)], 1, 0), None),
    Case(Load(&[(0, 0), (10, 1_000_000)], 1, 0), None),
    Case(Load(&[(0, 0), (10, 1_000_001)], 1, 0), Some(10)),
];

const RAMPS_AND_LAGS: [Case<Load>; 8] = [
    Case(Load(&[(0, 0), (10, 1_000)], 0, 0), Some(11)),
    Case(Load(&[(0, 0), (10, 1_000)], 1, 0), None),
    Case(Load(&[(0, 0), (10, 1_000)], 1_000, 0), None),
    Case(Load(&[(0, 0), (10, 1_000)], 1_001, 0), Some(11)),
    Case(Load(&[(0, 0), (10, 1_000)], 1, -1), Some(12)),
    Case(Load(&[(0, 0), (10, 1_000)], 1, 0), None),
    Case(Load(&[(0, 0), (10, 1_000)], 1, 10), None),
    Case(Load(&[(0, 0), (10, 1_000)], 1, 11), Some(12)),
];

const SEVERAL_FIT: [Case<Load>; 5] = [
    Case(Load(&[(-1, 1)], 0, -1), Some(8)),
    Case(Load(&[(10, 1), (10, 0)], 0, -1), Some(9)),
    Case(Load(&[(0, 1), (10, 0)], 0, -1), Some(10)),
    Case(Load(&[(0, 0), (10, 1_000)], 0, -1), Some(11)),
    Case(
        Load(
            &[(i64::MIN, i64::MIN), (i64::MAX, i64::MAX)],
            i64::MAX,
            i64::MIN,
        ),
        Some(9),
    ),
];

fn table(report: &mut Report<impl Print + AllocGlobal>, cases: &[Case<Load>]) -> io::Result<()> {
    let heap = report.runtime().alloc();
    refusals(report, cases, |load| {
        Ok(load.into(&mut Points::new(), heap)?)
    })
}

// On the line from 0 parts at 0 mHz to 10 parts at 3 mHz, the fraction dropped, and mirrored above 50,000 mHz.
const THIRDS: Load = Load(&[(0, 0), (3, 10)], 5, 2);

const ALONG_THIRDS: [Told; 7] = [
    Told(50_000, 0),
    Told(49_999, 3),
    Told(49_998, 6),
    Told(49_997, 10),
    Told(50_001, -3),
    Told(i64::MIN, 10),
    Told(i64::MAX, -10),
];

const REFUSED: Load = Load(&EIGHT, 1, 11);

fn holds_thirds(report: &mut Report<impl Print>, curve: &Points) -> io::Result<()> {
    tells(report, curve, &ALONG_THIRDS)?;
    report.compare("full", curve.full(), 10)?;
    report.compare("ramp", curve.ramp(), 5)?;
    report.compare("lag", curve.lag(), 2)
}

fn refused_load(report: &mut Report<impl Print + AllocGlobal>) -> io::Result<()> {
    report.title("A points curve after loading, and after another load that is refused")?;
    let heap = report.runtime().alloc();
    let mut curve = Points::new();
    let loaded = THIRDS.into(&mut curve, heap)?;
    refusal(report, "loaded", loaded, None)?;
    holds_thirds(report, &curve)?;
    let loaded = REFUSED.into(&mut curve, heap)?;
    refusal(report, "loaded with lag 11", loaded, Some(12))?;
    holds_thirds(report, &curve)
}

pub fn show(report: &mut Report<impl Print + AllocGlobal>) -> io::Result<()> {
    report.title("Points: refusals 8 to 12, 0 for loaded")?;
    table(report, &POINTS)?;
    table(report, &RAMPS_AND_LAGS)?;
    report.title("Points: the first of several refusals that fit")?;
    table(report, &SEVERAL_FIT)?;
    refused_load(report)
}
