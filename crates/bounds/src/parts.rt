// Parts of the contracted quantity, as a curve tells them.
ghost use Rattle.std.specs.Prelude.{◌≡◌, pos, negsuc, ◌≤ℤ◌};

use curve::Curve;

// No more of them than the most that full may be, either way: positive parts are what low frequency calls for.
#[derive(Clone, Copy)]
pub struct Parts {
    pub n: i64,
    ghost least: { negsuc 999999 ≤ℤ n },
    ghost most: { n ≤ℤ pos 1000000 },
}

impl Parts {
    // The parts that are the whole of the contracted quantity.
    pub fn full<K: Curve>(curve: &K) -> Parts
        ensures { result.n ≡ pos (K.Curve.shape curve.now).full }
    {
        Parts { n: curve.full() }
    }

    // The parts that a curve calls for at a frequency in mHz.
    pub fn at<K: Curve>(curve: &K, frequency: i64) -> Parts
        ensures { result.n ≡ (K.Curve.shape curve.now).parts frequency }
    {
        Parts {
            n: curve.parts(frequency),
        }
    }
}
