// Whether bytes are a form, and the first of them that does not fit.
ghost use Rattle.std.specs.Prelude.{◌≡◌};
ghost use Rattle.form.specs.Alphabet.{in_alphabet};
ghost use Rattle.form.specs.Misfits.{Checked};
ghost use Rattle.form.specs.Scanning.{kind_after, misfit_at, Ended};

use crate::misfit::{Kind, Misfit};
use crate::state::{Limits, State};

// At most ten digits, forms to depth four.
const LIMITS: Limits = Limits {
    more_digits: 9,
    depth: 4,
};

const ONE_DEPTH_MORE: Limits = Limits {
    depth: LIMITS.depth + 1,
    ..LIMITS
};

const ONE_DIGIT_MORE: Limits = Limits {
    more_digits: LIMITS.more_digits + 1,
    ..LIMITS
};

// Small letters, digits, brackets, space and minus.
fn in_alphabet(b: u8) -> bool
    ensures { result ≡ in_alphabet b }
{
    matches!(b, b'a'..=b'z' | b'0'..=b'9' | b'(' | b')' | b' ' | b'-')
}

// What is wrong with a byte that does not fit after this state.
fn kind_of(state: State, b: u8) -> Kind
    ensures { result ≡ kind_after state b }
{
    if !in_alphabet(b) {
        Kind::Alien
    } else if state.step(ONE_DEPTH_MORE, b).is_some() {
        Kind::TooDeep
    } else if state.with_room().step(ONE_DIGIT_MORE, b).is_some() {
        Kind::TooManyDigits
    } else {
        Kind::Misplaced
    }
}

// The misfit at a byte that does not fit after this state.
fn misfit_at(state: State, byte: usize, b: u8) -> Misfit
    ensures { result ≡ misfit_at state byte b }
{
    Misfit {
        byte,
        kind: kind_of(state, b),
    }
}

// Whether so many bytes that lead to this state are a form, or end before it does.
fn at_end(state: State, len: usize) -> Result<(), Misfit>
    ensures { Ended state len result }
{
    match state {
        State::Done => Ok(()),
        _ => Err(Misfit {
            byte: len,
            kind: Kind::Misplaced,
        }),
    }
}

// Whether these bytes are a form, or where and how they fail to be one.
pub fn check_form(bytes: &[u8]) -> Result<(), Misfit>
    ensures { Checked bytes.now result }
{
    let mut state = State::Start;
    for (i, &b) in bytes.iter().enumerate() {
        let Some(next) = state.step(LIMITS, b) else {
            return Err(misfit_at(state, i, b));
        };
        state = next;
    }
    at_end(state, bytes.len())
}
