// Checked terms, from those that are handed in.
ghost use Rattle.std.specs.Prelude.{◌≡◌, Some, None, Ok, Err, unsigned_abs};
ghost use Rattle.rules.specs.Terms.{handed_in};
ghost use Rattle.rules.specs.TermsCheck.{refused_terms};

use crate::terms::{Held, Terms};
use crate::terms_input::{Offer, TermsFault, TermsInput};

// What is held of an offer whose quantity is not below 0. (Not `From`: of an offer that was not checked it would mean nothing.)
fn held(offer: Offer) -> Held
    ensures quantity { result.quantity ≡ unsigned_abs offer.quantity }
    ensures price { result.price ≡ offer.price }
{
    Held {
        quantity: offer.quantity.unsigned_abs(),
        price: offer.price,
    }
}

// The checked terms, or the first refusal in the order of their numbers.
impl TryFrom<TermsInput> for Terms {
    type Error = TermsFault;

    ghost try_from_gives = { λ input r. elim r [ Ok t ↦ (refused_terms input ≡ None) × (handed_in t ≡ input) | Err e ↦ refused_terms input ≡ Some e ] };

    fn try_from(input: TermsInput) -> Result<Terms, TermsFault> {
        input.check()?;
        Ok(Terms {
            ticks: input.ticks.unsigned_abs(),
            needed: input.needed.unsigned_abs(),
            a: input.a.unsigned_abs(),
            b: input.b.unsigned_abs(),
            low: held(input.low),
            high: held(input.high),
        })
    }
}

// The same of terms that are lent: a public name, and for who lends terms no less plain than `Terms::try_from(*input)`.
pub fn check_terms(input: &TermsInput) -> Result<Terms, TermsFault>
    ensures { elim result [ Ok t ↦ (refused_terms input.now ≡ None) × (handed_in t ≡ input.now) | Err e ↦ refused_terms input.now ≡ Some e ] }
{
    Terms::try_from(*input)
}
