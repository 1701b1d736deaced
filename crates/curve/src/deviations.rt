// Deviations from nominal frequency, for curves that are told by them.
ghost use Rattle.std.specs.Prelude.{◌≡◌, ℕ, ◌≤◌, pos, negsuc, ◌≤ℤ◌};
ghost use Rattle.curve.specs.Deviations.{deviation, signed};

// How far a frequency is below nominal, beyond 40,000 and 60,000 mHz as at these ends.
pub(crate) fn deviation(frequency: i64) -> i64
    ensures { result ≡ deviation frequency }
{
    50_000 - frequency.clamp(40_000, 60_000)
}

// Parts with the sign of a deviation: below nominal they are positive. (Two makes of curve mirror their parts so, in two lines:
// a closure for the parts, with its pre and post, is no plainer.)
pub(crate) fn signed(deviation: i64, parts: u64) -> i64
    requires { parts ≤ 1000000 }
    ensures value { result ≡ signed deviation parts }
    ensures bounds { (negsuc 999999 ≤ℤ result) × (result ≤ℤ pos 1000000) }
{
    if deviation < 0 {
        -(parts as i64)
    } else {
        parts as i64
    }
}
