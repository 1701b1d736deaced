// Theorems of curves. The contract of each function is the theorem.
ghost use Rattle.std.specs.Prelude.{◌≡◌};
ghost use Rattle.curve.specs.Figures.{Figures, figures};
ghost use Rattle.curve.specs.Laws.{ContainmentIsCurve, PointsAreCurves, SidedAreCurves, JoinedByLines};
ghost use Rattle.curve.specs.Shape.{IsCurve};

use crate::by_pieces::Containment;
use crate::response::Curve;

// Containment, accepted points and any curve seen from the contracts that are held are curves.
pub fn each_kind_is_a_curve()
    ensures containment { ContainmentIsCurve }
    ensures points { PointsAreCurves }
    ensures sided { SidedAreCurves }
{}

// Whatever implements `Curve` has the facts of a curve.
pub fn facts_of_a_curve<C: Curve>(curve: &C)
    ensures { IsCurve (C.Curve.shape curve.now) }
{}

// Accepted points tell 0 up to the first, the straight line between two neighbours, and the last parts past the last.
pub fn points_are_joined_by_lines()
    ensures { JoinedByLines }
{}

// Containment's parts at seven frequencies in mHz.
pub fn containment_figures() -> [i64; 7]
    ensures told { result ≡ figures }
    ensures theorem { Figures }
{
    let curve = Containment;
    [
        curve.parts(49_985),
        curve.parts(49_984),
        curve.parts(49_800),
        curve.parts(49_799),
        curve.parts(49_650),
        curve.parts(49_499),
        curve.parts(50_200),
    ]
}
