// Text read by a template.
ghost use Rattle.std.specs.Prelude.{◌≡◌, length, drop};
ghost use Rattle.template.specs.Templates.{holes, Tells};

use crate::number::read_number;

// Whether the bytes are the template's text for some numbers of at most ten digits, which are then put down in the order of the
// holes. A no holds for a template with neither a digit nor a hole right behind a hole, where there is room for a number for each hole;
// some numbers may have been put down then. Those behind the holes' stay in any case. (Into a lent slice, and not an array that is
// answered: how many holes a template has may be known only while the program runs, and any room serves, from the heap too.)
pub fn read_filled(template: &[u8], bytes: &[u8], numbers: &mut [i64]) -> bool
    ensures read { Tells template.now bytes.now (length numbers.old) numbers.new result }
    ensures behind { drop (holes template.now) numbers.new ≡ drop (holes template.now) numbers.old }
{
    let mut rest = bytes;
    let mut count = 0;
    for t in template {
        if *t == b'#' {
            if count == numbers.len() {
                return false;
            }
            let Some((number, after)) = read_number(rest) else {
                return false;
            };
            numbers[count] = number;
            count += 1;
            rest = after;
        } else {
            match rest {
                [b, after @ ..] if b == t => rest = after,
                _ => return false,
            }
        }
    }
    rest.is_empty()
}
