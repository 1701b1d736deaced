// How a curve line is made, what it says, and its numbers in the order in which they are written.
ghost use Rattle.std.specs.Prelude.{◌≡◌, ◌%◌, ◌<◌, ◌≤◌, length, Ok, Err};
ghost use Rattle.basics.specs.Few.{items};
ghost use Rattle.sheet.specs.Lines.{curve_said, line_numbers, of_curve, points_of};
ghost use Rattle.template.specs.declared.fault.WriteFault.TheVariants.{TooLong};

use crate::curve_line::{CurveLine, MOST_POINTS};
use arrayvec::ArrayVec;
use basics::Few;
use curve::Point;
use template::WriteFault;

// Ramp, lag, and two numbers for each point.
pub const MOST_NUMBERS: usize = 2 * MOST_POINTS + 2;

// All of the points, where a line has room for them.
fn kept(points: &[Point]) -> Few<Point, MOST_POINTS>
    requires { length points.now ≤ 23 }
    ensures { items result ≡ points.now }
{
    Few::first(points)
}

impl CurveLine {
    // A curve line, unless there are more points than a line can hold.
    pub fn new(ramp: i64, lag: i64, points: &[Point]) -> Result<CurveLine, WriteFault>
        ensures { elim result [ Ok line ↦ curve_said line ≡ of_curve ramp lag points.now | Err fault ↦ (23 < length points.now) × (fault ≡ TooLong) ] }
    {
        if points.len() > MOST_POINTS {
            return Err(WriteFault::TooLong);
        }
        Ok(CurveLine {
            ramp,
            lag,
            points: kept(points),
        })
    }

    pub fn points(&self) -> &[Point]
        ensures said { result.now ≡ points_of self.now }
        ensures few { length result.now ≤ 23 }
    {
        self.points.as_slice()
    }

    // Its numbers. (No `From`: others need not know of them.)
    pub(crate) fn numbers(&self) -> ArrayVec<i64, MOST_NUMBERS>
        ensures { result.items ≡ line_numbers (curve_said self.now) }
    {
        let mut numbers = ArrayVec::new();
        numbers.push(self.ramp);
        numbers.push(self.lag);
        for point in self.points() {
            numbers.push(point.deviation);
            numbers.push(point.parts);
        }
        numbers
    }

    // The line with these numbers. (Not by `chunks_exact`, whose parts are slices that need an index again, nor by an `ArrayVec` of
    // points, which would be copied once more; no `From`, since any numbers are not a line's.)
    pub(crate) fn of_numbers(numbers: &[i64]) -> CurveLine
        requires some { 2 ≤ length numbers.now }
        requires few { length numbers.now ≤ 48 }
        requires even { length numbers.now % 2 ≡ 0 }
        ensures { line_numbers (curve_said result) ≡ numbers.now }
    {
        let mut points = [Point::default(); MOST_POINTS];
        let mut count = 0;
        let mut rest = &numbers[2..];
        while let [deviation, parts, after @ ..] = rest {
            points[count] = Point {
                deviation: *deviation,
                parts: *parts,
            };
            count += 1;
            rest = after;
        }
        CurveLine {
            ramp: numbers[0],
            lag: numbers[1],
            points: Few::front(points, count),
        }
    }
}
