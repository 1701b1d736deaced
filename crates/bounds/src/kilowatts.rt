// What parts and responses come to in kW, which is not rounded: it is held as a whole number of kW times full.
ghost use Rattle.std.specs.Prelude.{◌≡◌, ◌≤◌, pos, negsuc, ◌*ℤ◌, ◌≤ℤ◌};
ghost use Rattle.bounds.specs.Errors.{kilowatts, response, share, outside};

use crate::parts::Parts;
use curve::{Curve, Sides};
use rules::{Accepted, Contract, Terms};

// No more than parts, or a response, can come to.
#[derive(Clone, Copy)]
pub struct Kilowatts {
    times_full: i64,
    ghost least: { negsuc 1999999999999 ≤ℤ times_full },
    ghost most: { times_full ≤ℤ pos 2000000000000 },
}

impl Kilowatts {
    // A product whose factors are known to be small.
    fn product(a: i64, n: i64) -> Kilowatts
        requires { (negsuc 1999999 ≤ℤ a) × ((a ≤ℤ pos 2000000) × ((pos 0 ≤ℤ n) × (n ≤ℤ pos 1000000))) }
        ensures { result.times_full ≡ a *ℤ n }
    {
        Kilowatts { times_full: a * n }
    }

    // The low quantity counts for parts of 0 or more, the high quantity for negative parts.
    pub fn of_parts(terms: &Terms, parts: Parts) -> Kilowatts
        ensures { result.times_full ≡ kilowatts terms.now parts.n }
    {
        let contract = if parts.n < 0 {
            Contract::High
        } else {
            Contract::Low
        };
        Kilowatts::product(parts.n, 1000 * terms.of(contract).quantity as i64)
    }

    // The response of a reading.
    pub fn of_response<K: Curve>(curve: &K, reading: &Accepted) -> Kilowatts
        ensures { result.times_full ≡ response (K.Curve.shape curve.now).full reading.now.reading }
    {
        Kilowatts::product(reading.response(), curve.full())
    }

    // What counts for a contract: if both are held, the low error has negatives replaced by 0 and the high error positives.
    pub fn share(self, held: Sides, contract: Contract) -> Kilowatts
        ensures { result.times_full ≡ share held contract self.times_full }
    {
        let times_full = match (held, contract) {
            (Sides::Both, Contract::Low) => self.times_full.max(0),
            (Sides::Both, Contract::High) => self.times_full.min(0),
            _ => self.times_full,
        };
        Kilowatts { times_full }
    }

    // The distance outside the bounds, and 0 inside.
    pub fn outside(self, lower: Kilowatts, upper: Kilowatts) -> u64
        ensures value { result ≡ outside (lower.times_full, upper.times_full) self.times_full }
        ensures bound { result ≤ 4000000000000 }
    {
        if self.times_full < lower.times_full {
            lower.times_full.abs_diff(self.times_full)
        } else if self.times_full > upper.times_full {
            self.times_full.abs_diff(upper.times_full)
        } else {
            0
        }
    }
}
