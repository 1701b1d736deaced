// A curve seen from the contracts that are held.
ghost use Rattle.std.specs.Prelude.{◌≡◌, ℕ, ◌≤◌, pos};
ghost use Rattle.curve.specs.Sides.{side, sided};
ghost use Rattle.curve.specs.SidedFacts.{sided_is_curve};

use crate::response::Curve;

// Which contracts are held: low alone, high alone, or both; with its place in a table of one entry for each.
#[derive(Clone, Copy, PartialEq, Eq, Debug)]
pub enum Sides {
    Low = 0,
    High = 1,
    Both = 2,
}

impl Sides {
    // The parts of a curve that these contracts answer for.
    pub fn side(self, parts: i64) -> i64
        ensures { result ≡ side self parts }
    {
        match self {
            Sides::Low => parts.max(0),
            Sides::High => parts.min(0),
            Sides::Both => parts,
        }
    }
}

// Any curve, with only the side that the held contracts answer for.
#[derive(Clone, Copy, Drop)]
pub struct Sided<C> {
    pub curve: C,
    pub held: Sides,
}

impl<C: Curve> Curve for Sided<C> {
    ghost shape = { λ s. sided s.held (C.Curve.shape s.curve) };

    ghost facts = { λ c. sided_is_curve c.held (C.Curve.shape c.curve) (C.Curve.facts c.curve) };

    fn full(&self) -> i64 {
        self.curve.full()
    }

    fn ramp(&self) -> i64 {
        self.curve.ramp()
    }

    fn lag(&self) -> usize {
        self.curve.lag()
    }

    fn parts(&self, frequency: i64) -> i64 {
        self.held.side(self.curve.parts(frequency))
    }
}
