// Text written by a template.
ghost use Rattle.std.specs.Prelude.{◌≡◌};
ghost use Rattle.template.specs.Numbers.{short};
ghost use Rattle.template.specs.Templates.{all_short, fill, PutBehind, WrittenText};

use crate::digits::put_number;
use crate::fault::WriteFault;
use crate::text::{LONGEST, Text, put_byte};

// Whether a number has at most ten digits.
fn is_short(z: i64) -> bool
    ensures { result ≡ short z }
{
    z.unsigned_abs() < 10_000_000_000
}

// Whether each number has at most ten digits.
fn all_short(numbers: &[i64]) -> bool
    ensures { result ≡ all_short numbers.now }
{
    numbers.iter().all(|z| is_short(*z))
}

// Puts the template's text for these numbers behind the text, 0 where they have run out.
fn put_filled(template: &[u8], numbers: &[i64], text: &mut Text) -> Result<(), WriteFault>
    ensures { PutBehind (fill template.now numbers.now) text.old.items text.new.items result }
{
    let mut left = numbers.iter();
    for b in template {
        if *b == b'#' {
            put_number(left.next().copied().unwrap_or(0), text)?;
        } else {
            put_byte(*b, text)?;
        }
    }
    Ok(())
}

// Writes the template's text for these numbers at the front of the buffer, and says how many bytes it has; or says why not, and leaves
// the buffer as it was. (The buffer is the caller's, and no heap is used: a count is answered, and no text handed out.)
#[tactic(auto, using(crate::proofs::FilledRead::fill_long))]
pub fn write_filled(template: &[u8], numbers: &[i64], out: &mut [u8]) -> Result<usize, WriteFault>
    ensures { WrittenText numbers.now (fill template.now numbers.now) out.old out.new result }
{
    // A template is no longer than its text: each hole becomes a byte at least.
    if !all_short(numbers) || template.len() > LONGEST {
        return Err(WriteFault::TooLong);
    }
    let mut text = Text::new();
    put_filled(template, numbers, &mut text)?;
    let length = text.len();
    if length > out.len() {
        return Err(WriteFault::NoRoom);
    }
    out[..length].copy_from_slice(text.as_slice());
    Ok(length)
}
