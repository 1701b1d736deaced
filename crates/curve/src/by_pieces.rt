// The curve of Dynamic Containment, given by its pieces.
ghost use Rattle.std.specs.Prelude.{◌≡◌, ℕ, ◌≤◌, pos};
ghost use Rattle.curve.specs.Containment.{containment, pieces};
ghost use Rattle.curve.specs.ContainmentFacts.{containment_is_curve};

use crate::deviations::{deviation, signed};
use crate::response::Curve;

#[derive(Clone, Copy)]
pub struct Containment;

// Parts for a deviation of 0 and more, in mHz: none up to 15, then 60 for each mHz up to 200, then 703 for each up to 500,
// then full.
fn pieces(deviation: u64) -> u64
    ensures value { result ≡ pieces deviation }
    ensures bound { result ≤ 222000 }
{
    if deviation <= 15 {
        0
    } else if deviation <= 200 {
        60 * (deviation - 15)
    } else if deviation <= 500 {
        11_100 + 703 * (deviation - 200)
    } else {
        222_000
    }
}

impl Curve for Containment {
    ghost shape = { λ _. containment };

    ghost facts = { λ c. containment_is_curve };

    fn full(&self) -> i64 {
        222_000
    }

    fn ramp(&self) -> i64 {
        22_200
    }

    fn lag(&self) -> usize {
        10
    }

    fn parts(&self, frequency: i64) -> i64 {
        let d = deviation(frequency);
        signed(d, pieces(d.unsigned_abs()))
    }
}
