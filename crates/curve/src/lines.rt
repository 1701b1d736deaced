// Parts along accepted points, for a deviation of 0 and more.
ghost use Rattle.std.specs.Prelude.{◌≡◌, ℕ, ◌<◌, ◌≤◌, true};
ghost use Rattle.curve.specs.Loading.{rising, climbing};
ghost use Rattle.curve.specs.Points.{at, height, line, beyond, along, Neighbours, Onward};

use crate::loading::Point;

// A point's deviation.
fn at(point: Point) -> u64
    ensures { result ≡ at point }
{
    point.deviation.unsigned_abs()
}

// A point's parts.
fn height(point: Point) -> u64
    ensures { result ≡ height point }
{
    point.parts.unsigned_abs()
}

// Parts on the straight line from one point to the next, the fraction dropped.
fn line(from: Point, to: Point, deviation: u64) -> u64
    requires points { Neighbours from to }
    requires between { (at from ≤ deviation) × (deviation ≤ at to) }
    ensures { result ≡ line from to deviation }
{
    let rise = height(to) - height(from);
    let run = at(to) - at(from);
    height(from) + rise * (deviation - at(from)) / run
}

// Parts beyond the first of these points.
fn beyond(first: Point, rest: &[Point], deviation: u64) -> u64
    requires points { Onward first rest.now }
    requires past { at first < deviation }
    ensures { result ≡ beyond first rest.now deviation }
{
    let mut from = first;
    for to in rest {
        if deviation <= at(*to) {
            return line(from, *to, deviation);
        }
        from = *to;
    }
    height(from)
}

// Parts along all of these points: 0 up to the first.
pub(crate) fn along(points: &[Point], deviation: u64) -> u64
    requires rise { rising points.now ≡ true }
    requires climb { climbing points.now ≡ true }
    ensures value { result ≡ along points.now deviation }
    ensures bound { result ≤ 1000000 }
{
    match points {
        [] => 0,
        [first, rest @ ..] => {
            if deviation <= at(*first) {
                0
            } else {
                beyond(*first, rest, deviation)
            }
        }
    }
}
