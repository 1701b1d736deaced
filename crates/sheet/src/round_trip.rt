// A line written, and read again from what was written.
ghost use Rattle.sheet.specs.Lines.{said_by};
ghost use Rattle.sheet.specs.Writes.{SaidAgain};

use crate::line::Line;
use crate::reader::read_line;
use crate::writer::write_line;
use template::WriteFault;

// Writes a line into the buffer and reads it back from there: what is read says what was written. Refuses only what the writer
// refuses.
pub fn read_back(line: &Line, out: &mut [u8]) -> Result<Line, WriteFault>
    ensures { SaidAgain (said_by line.now) out.old out.new result }
{
    let length = write_line(line, out)?;
    match read_line(&out[..length]) {
        Ok(read) => Ok(read),
        Err(_) => unreachable!(),
    }
}
