// How a points curve is made and loaded.
ghost use Rattle.std.specs.Prelude.{◌≡◌, Some, None, Ok, Err};
ghost use Rattle.curve.specs.Containment.{containment};
ghost use Rattle.curve.specs.Loading.{refused_points};
ghost use Rattle.curve.specs.Points.{points_shape};
ghost use Rattle.curve.specs.HeldPoints.{held_shape};
ghost use Rattle.curve.specs.Shape.{SameShape};

use crate::by_points::Points;
use crate::loading::{Point, PointsFault, check};
use basics::Few;

// Containment's points.
const CONTAINMENT: [Point; 3] = [
    Point {
        deviation: 15,
        parts: 0,
    },
    Point {
        deviation: 200,
        parts: 11_100,
    },
    Point {
        deviation: 500,
        parts: 222_000,
    },
];

impl Points {
    // Containment's points, ramp and lag, which are held before any loading.
    pub fn new() -> Self
        ensures { SameShape (held_shape result) containment }
    {
        Points {
            points: Few::first(&CONTAINMENT),
            ramp: 22_200,
            lag: 10,
        }
    }

    // Takes other points, ramp and lag, or says the first fault in them and stays as it was.
    pub fn load(&mut self, points: &[Point], ramp: i64, lag: i64) -> Result<(), PointsFault>
        ensures verdict { elim result [ Ok _ ↦ refused_points points.now ramp lag ≡ None | Err fault ↦ refused_points points.now ramp lag ≡ Some fault ] }
        ensures held { elim result [ Ok _ ↦ held_shape self.new ≡ points_shape points.now ramp lag | Err _ ↦ self.new ≡ self.old ] }
    {
        check(points, ramp, lag)?;
        *self = Points {
            points: Few::first(points),
            ramp,
            lag,
        };
        Ok(())
    }
}

// Not derived: that would be a curve of no points.
impl Default for Points {
    ghost is_default = { λ c. SameShape (held_shape c) containment };

    fn default() -> Self {
        Points::new()
    }
}
