// A text of at most 200 bytes, made piece by piece.
ghost use Rattle.std.specs.Prelude.{[], ◌∷◌};
ghost use Rattle.template.specs.Templates.{PutBehind};

use crate::fault::WriteFault;
use arrayvec::ArrayVec;

// The most bytes that a text has.
pub const LONGEST: usize = 200;

pub type Text = ArrayVec<u8, LONGEST>;

// Puts a byte behind the text.
pub fn put_byte(b: u8, text: &mut Text) -> Result<(), WriteFault>
    ensures { PutBehind (b ∷ []) text.old.items text.new.items result }
{
    text.try_push(b).map_err(|_| WriteFault::TooLong)
}
