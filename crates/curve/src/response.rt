// What it is to be a response curve.
ghost use Rattle.std.specs.Prelude.{◌≡◌, ℕ, ◌≤◌, pos, negsuc, ◌≤ℤ◌};
ghost use Rattle.curve.specs.Shape.{Shape, IsCurve};

// Asked for any frequency in mHz a curve answers with parts; asking refuses nothing and alters nothing.
pub trait Curve {
    ghost shape: { Self → Shape };

    // The parts that are the whole of the contracted quantity.
    fn full(&self) -> i64
        ensures value { result ≡ pos (shape self.now).full }
        ensures bounds { (pos 1 ≤ℤ result) × (result ≤ℤ pos 1000000) };

    // The parts that a bound may move in a tick.
    fn ramp(&self) -> i64
        ensures value { result ≡ pos (shape self.now).ramp }
        ensures bounds { (pos 1 ≤ℤ result) × (result ≤ℤ pos 1000000) };

    // How many ticks a response may lag behind the frequency.
    fn lag(&self) -> usize
        ensures value { result ≡ (shape self.now).lag }
        ensures bounds { result ≤ 10 };

    // The parts that are called for at a frequency in mHz.
    fn parts(&self, frequency: i64) -> i64
        ensures value { result ≡ (shape self.now).parts frequency }
        ensures bounds { (negsuc 999999 ≤ℤ result) × (result ≤ℤ pos 1000000) };

    ghost facts: { (c : Self) → IsCurve (shape c) };
}
