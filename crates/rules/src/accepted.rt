// Readings that have passed the check.
ghost use Rattle.std.specs.Prelude.{◌≡◌, true};
ghost use Rattle.rules.specs.ReadingsCheck.{in_range};

use crate::reading::Reading;

pub mod check;

// A reading that a check has accepted, and that can be had from nothing else.
#[derive(Clone, Copy)]
pub struct Accepted {
    reading: Reading,
    ghost checked: { in_range reading ≡ true },
}
