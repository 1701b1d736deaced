// The error of a response against its bounds.
ghost use Rattle.std.specs.Prelude.{◌≡◌, ◌≤◌};
ghost use Rattle.bounds.specs.Errors.{in_kilowatts, scaled, error};
ghost use Rattle.bounds.specs.Kept.{parts_of};

use crate::kilowatts::Kilowatts;
use crate::limits::Bounds;
use curve::Curve;
use rules::{Accepted, Contract, Terms};

// A distance in kW times full, in millionths of the contracted quantity; the fraction is dropped.
fn scaled<K: Curve>(curve: &K, mw: u64, distance: u64) -> u64
    requires quantity { (1 ≤ mw) × (mw ≤ 100) }
    requires bound { distance ≤ 4000000000000 }
    ensures { result ≡ scaled (K.Curve.shape curve.now).full mw distance }
{
    let full = curve.full().unsigned_abs();
    distance * 1_000_000 / (mw * 1000 * full)
}

// An accepted reading, and the bounds that it is held against.
#[derive(Clone, Copy)]
pub struct Bounded {
    pub reading: Accepted,
    pub bounds: Bounds,
}

impl Bounded {
    // The error of a contract at this reading; none where it is not judged for the contract.
    pub fn error<K: Curve>(&self, curve: &K, terms: &Terms, contract: Contract) -> Option<u64>
        ensures { result ≡ error terms.now (K.Curve.shape curve.now).full contract (in_kilowatts terms.now (parts_of self.now.bounds)) self.now.reading.reading }
    {
        let mw = terms.of(contract).quantity;
        if mw == 0 || !self.reading.available(contract) {
            return None;
        }
        let held = terms.sides();
        let lower = Kilowatts::of_parts(terms, self.bounds.lower).share(held, contract);
        let upper = Kilowatts::of_parts(terms, self.bounds.upper).share(held, contract);
        let response = Kilowatts::of_response(curve, &self.reading).share(held, contract);
        Some(scaled(curve, mw, response.outside(lower, upper)))
    }
}
