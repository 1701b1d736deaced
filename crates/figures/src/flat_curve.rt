// A curve that calls for no response at any frequency.
ghost use Rattle.std.specs.Prelude.{◌≡◌, ℕ, ◌≤◌};
ghost use Rattle.figures.specs.Flat.{flat};
ghost use Rattle.std.proofs.Common.{rules};

use curve::Curve;

#[derive(Clone, Copy)]
pub struct Flat;

impl Curve for Flat {
    ghost shape = { λ _. flat };

    ghost facts = { Prim.search rules };

    fn full(&self) -> i64 {
        1_000
    }

    fn ramp(&self) -> i64 {
        250
    }

    fn lag(&self) -> usize {
        1
    }

    fn parts(&self, _frequency: i64) -> i64 {
        0
    }
}
