// A block that is closed: what each contract comes to.
ghost use Rattle.std.specs.Prelude.{◌≡◌};

use factors::Settlement;

pub mod figures;

// The curve that the account was opened on, and what the low and the high contract come to. (Two fields: see `Contract::pick`.)
#[derive(Drop)]
pub struct ClosedBlock<C> {
    curve: C,
    low: Settlement,
    high: Settlement,
}

impl<C> ClosedBlock<C> {
    pub(crate) fn new(curve: C, low: Settlement, high: Settlement) -> ClosedBlock<C>
        ensures { result ≡ record { curve = curve; low = low; high = high } }
    {
        ClosedBlock { curve, low, high }
    }
}
