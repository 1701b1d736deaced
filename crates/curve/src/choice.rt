// Either make of curve, chosen while the program runs. An enum and not a `dyn Curve`: it is copied and needs no heap.
ghost use Rattle.std.specs.Prelude.{◌≡◌, ℕ, ◌≤◌};
ghost use Rattle.curve.specs.Choice.{chosen_shape};
ghost use Rattle.curve.specs.HeldFacts.{chosen_is_curve};

use crate::by_pieces::Containment;
use crate::by_points::Points;
use crate::response::Curve;

#[derive(Clone, Copy)]
pub enum AnyCurve {
    Containment(Containment),
    Points(Points),
}

impl Curve for AnyCurve {
    ghost shape = { λ c. chosen_shape c };

    ghost facts = { λ c. chosen_is_curve c };

    fn full(&self) -> i64 {
        match self {
            AnyCurve::Containment(curve) => curve.full(),
            AnyCurve::Points(curve) => curve.full(),
        }
    }

    fn ramp(&self) -> i64 {
        match self {
            AnyCurve::Containment(curve) => curve.ramp(),
            AnyCurve::Points(curve) => curve.ramp(),
        }
    }

    fn lag(&self) -> usize {
        match self {
            AnyCurve::Containment(curve) => curve.lag(),
            AnyCurve::Points(curve) => curve.lag(),
        }
    }

    fn parts(&self, frequency: i64) -> i64 {
        match self {
            AnyCurve::Containment(curve) => curve.parts(frequency),
            AnyCurve::Points(curve) => curve.parts(frequency),
        }
    }
}
