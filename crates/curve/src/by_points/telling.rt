// A points curve is a curve.
ghost use Rattle.std.specs.Prelude.{◌≡◌, ℕ, ◌≤◌, true, pos};
ghost use Rattle.curve.specs.Loading.{rising, climbing};
ghost use Rattle.curve.specs.HeldPoints.{held_points, held_shape};
ghost use Rattle.curve.specs.HeldFacts.{held_is_curve};

use crate::by_points::Points;
use crate::deviations::{deviation, signed};
use crate::lines::along;
use crate::loading::{Point, full_parts};
use crate::response::Curve;

impl Points {
    // The points that are held.
    fn held(&self) -> &[Point]
        ensures which { result.now ≡ held_points self.now }
        ensures rise { rising result.now ≡ true }
        ensures climb { climbing result.now ≡ true }
    {
        self.points.as_slice()
    }
}

impl Curve for Points {
    ghost shape = { λ c. held_shape c };

    ghost facts = { λ c. held_is_curve c };

    fn full(&self) -> i64 {
        full_parts(self.held())
    }

    fn ramp(&self) -> i64 {
        self.ramp
    }

    fn lag(&self) -> usize {
        self.lag.unsigned_abs() as usize
    }

    fn parts(&self, frequency: i64) -> i64 {
        let d = deviation(frequency);
        signed(d, along(self.held(), d.unsigned_abs()))
    }
}
