// Bytes in quotes: printable ASCII as it is, any other byte by its number; of many bytes, the front, the end and how many
// there are.
use std::fmt;

const MANY: usize = 130;

const FRONT: usize = 40;

const END: usize = 12;

// (`Display` is written by hand: no derive of the library writes one that is not an error's.)
#[derive(Clone, Copy, PartialEq, Eq)]
pub struct Visible<'a>(pub &'a [u8]);

// Each byte, between the quotes.
fn each<W: fmt::Write>(bytes: &[u8], f: &mut fmt::Formatter<W>) -> fmt::Result {
    for &b in bytes {
        if matches!(b, b' '..=b'~') {
            write!(f, "{}", b as char)?;
        } else {
            write!(f, "\\x{b:02x}")?;
        }
    }
    Ok(())
}

impl fmt::Display for Visible<'_> {
    fn fmt<W: fmt::Write>(&self, f: &mut fmt::Formatter<W>) -> fmt::Result {
        let bytes = self.0;
        let count = bytes.len();
        write!(f, "\"")?;
        if count <= MANY {
            each(bytes, f)?;
            return write!(f, "\"");
        }
        let (front, _) = bytes.split_at(FRONT);
        let (_, end) = bytes.split_at(count - END);
        each(front, f)?;
        write!(f, " .. ")?;
        each(end, f)?;
        write!(f, "\" of {count} bytes")
    }
}
