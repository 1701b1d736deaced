// The bounds of a reading.
ghost use Rattle.std.specs.Prelude.{◌≡◌};
ghost use Rattle.bounds.specs.Bounds.{top, bottom, raw, limited};
ghost use Rattle.bounds.specs.Kept.{told};

use crate::kept_window::Window;
use crate::parts::Parts;
use curve::{Curve, Sides};

// In parts, the lower first.
#[derive(Clone, Copy)]
pub struct Bounds {
    pub lower: Parts,
    pub upper: Parts,
}

impl Bounds {
    ghost use Rattle.bounds.specs.Kept.{parts_of};

    // The least and the most that the held contracts can ask for.
    fn widest(held: Sides, full: Parts) -> Bounds
        ensures { parts_of result ≡ (bottom held full.n, top held full.n) }
    {
        let (lower, upper) = match held {
            Sides::Low => (0, full.n),
            Sides::High => (-full.n, 0),
            Sides::Both => (-full.n, full.n),
        };
        Bounds {
            lower: Parts { n: lower },
            upper: Parts { n: upper },
        }
    }

    // The raw bounds: in grace the widest, else the curve at the window's highest and at its lowest frequency. (Curve
    // and contracts stay two: a track takes in readings on any curve, and to ask for a `Sided`, which has both, would ask more.)
    pub fn raw<K: Curve>(curve: &K, held: Sides, in_grace: bool, window: &Window) -> Bounds
        ensures { parts_of result ≡ raw held (K.Curve.shape curve.now) in_grace (told window.now) }
    {
        if in_grace {
            Bounds::widest(held, Parts::full(curve))
        } else {
            Bounds {
                lower: Parts::at(curve, window.highest()),
                upper: Parts::at(curve, window.lowest()),
            }
        }
    }

    // A bound closes in by at most the ramp a reading, and opens at once.
    pub fn limited<K: Curve>(self, curve: &K, last: Bounds) -> Bounds
        ensures { parts_of result ≡ limited (K.Curve.shape curve.now).ramp (parts_of last) (parts_of self) }
    {
        let ramp = curve.ramp();
        let lower = self.lower.n.min(last.lower.n + ramp);
        let upper = self.upper.n.max(last.upper.n - ramp);
        Bounds {
            lower: Parts { n: lower },
            upper: Parts { n: upper },
        }
    }
}

impl From<Bounds> for (i64, i64) {
    ghost use Rattle.bounds.specs.Kept.{parts_of};

    ghost from_gives = { λ bounds pair. pair ≡ parts_of bounds };

    fn from(bounds: Bounds) -> (i64, i64) {
        (bounds.lower.n, bounds.upper.n)
    }
}
