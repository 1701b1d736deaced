// What is handed in for a points curve, and what is looked at before it is accepted.
ghost use Rattle.std.specs.Prelude.{◌≡◌, ℕ, ◌≤◌, pos, Some, None, Ok, Err};
ghost use Rattle.curve.specs.Loading.{refused_points, fault_number, countable, follows, rising, starts, climbs, climbing, full_parts};

use basics::require;

// A point of a curve: so many parts at a deviation in mHz. Any numbers can be handed in.
#[derive(Clone, Copy, PartialEq, Eq, Debug, Default)]
pub struct Point {
    pub deviation: i64,
    pub parts: i64,
}

// Why points are refused, with the number by which the fault is reported.
#[derive(Clone, Copy, PartialEq, Eq, Debug)]
pub enum PointsFault {
    // Not 2 to 8 points.
    Count = 8,
    // A deviation outside 0 to 10,000 mHz, or not above the one before.
    Deviation = 9,
    // First parts that are not 0, parts below the ones before, or last parts outside 1 to 1,000,000.
    Parts = 10,
    // A ramp outside 1 to the last parts.
    Ramp = 11,
    // A lag outside 0 to 10 ticks.
    Lag = 12,
}

impl PointsFault {
    // The number by which the fault is reported. (Each type of fault has this line: a trait would ask it of each again.)
    pub fn number(self) -> u32
        ensures { result ≡ fault_number self }
    {
        self as u32
    }
}

// 2 to 8 points.
fn countable(count: usize) -> bool
    ensures { result ≡ countable count }
{
    (2..=8).contains(&count)
}

// A deviation is 0 to 10,000 mHz, and above the one before.
fn follows(before: i64, deviation: i64) -> bool
    ensures { result ≡ follows before deviation }
{
    (0..=10_000).contains(&deviation) && before < deviation
}

// Each deviation follows the one before; the first may be 0. (A `for`: `is_sorted_by` would leave the first to another test.)
fn rising(points: &[Point]) -> bool
    ensures { result ≡ rising points.now }
{
    let mut before = -1;
    for point in points {
        if !follows(before, point.deviation) {
            return false;
        }
        before = point.deviation;
    }
    true
}

// The parts of the last point. (`map_or` was tried for the match: search gave up on its goal.)
pub(crate) fn full_parts(points: &[Point]) -> i64
    ensures { result ≡ full_parts points.now }
{
    match points.last() {
        Some(last) => last.parts,
        None => 0,
    }
}

// The first parts are 0.
fn starts(points: &[Point]) -> bool
    ensures { result ≡ starts points.now }
{
    points.first().is_none_or(|first| first.parts == 0)
}

// No parts are below the ones before, nor the first below 0. (A `for`, as above.)
fn climbs(points: &[Point]) -> bool
    ensures { result ≡ climbs (pos 0) points.now }
{
    let mut before = 0;
    for point in points {
        if point.parts < before {
            return false;
        }
        before = point.parts;
    }
    true
}

// The first parts are 0, none are below the ones before, and the last are 1 to 1,000,000.
fn climbing(points: &[Point]) -> bool
    ensures { result ≡ climbing points.now }
{
    starts(points) && climbs(points) && (1..=1_000_000).contains(&full_parts(points))
}

// The first fault, in the order of the enum. (Points, ramp and lag are one thing only once they are held: a struct of them for
// this call is no plainer.)
pub(crate) fn check(points: &[Point], ramp: i64, lag: i64) -> Result<(), PointsFault>
    ensures { elim result [ Ok _ ↦ refused_points points.now ramp lag ≡ None | Err fault ↦ refused_points points.now ramp lag ≡ Some fault ] }
{
    require(countable(points.len()), PointsFault::Count)?;
    require(rising(points), PointsFault::Deviation)?;
    require(climbing(points), PointsFault::Parts)?;
    require((1..=full_parts(points)).contains(&ramp), PointsFault::Ramp)?;
    require((0..=10).contains(&lag), PointsFault::Lag)
}
