// Checks in a stated order: each is required, and the first that fails gives the refusal.
ghost use Rattle.std.specs.Prelude.{◌≡◌, true, false, Ok, Err};

// Nothing if the test holds, else the fault.
pub fn require<F: Drop>(holds: bool, fault: F) -> Result<(), F>
    ensures { elim result [ Ok _ ↦ holds ≡ true | Err e ↦ (holds ≡ false) × (e ≡ fault) ] }
{
    if holds { Ok(()) } else { Err(fault) }
}
