// A curve that is not symmetric: full below 49,500 mHz, and half of full the other way above 50,300 mHz.
ghost use Rattle.std.specs.Prelude.{◌≡◌, ℕ, ◌≤◌};
ghost use Rattle.figures.specs.Asymmetric.{asymmetric};
ghost use Rattle.std.proofs.Common.{rules};

use curve::Curve;

#[derive(Clone, Copy)]
pub struct Asymmetric;

impl Curve for Asymmetric {
    ghost shape = { λ _. asymmetric };

    ghost facts = { Prim.search rules };

    fn full(&self) -> i64 {
        1_000
    }

    fn ramp(&self) -> i64 {
        250
    }

    fn lag(&self) -> usize {
        0
    }

    fn parts(&self, frequency: i64) -> i64 {
        if frequency < 49_500 {
            1_000
        } else if frequency <= 50_300 {
            0
        } else {
            -500
        }
    }
}
