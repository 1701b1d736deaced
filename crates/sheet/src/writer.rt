// Lines written at the front of a buffer.
ghost use Rattle.std.specs.Prelude.{◌≤◌};
ghost use Rattle.sheet.specs.Lines.{curve_said, of_block, of_reading, said_by};
ghost use Rattle.sheet.specs.Writes.{Written};

use crate::curve_line::CurveLine;
use crate::line::Line;
use crate::numbers::Numbered;
use crate::templates::{curve_length, curve_template};
use rules::{Reading, TermsInput};
use template::{WriteFault, write_filled};

// Writes a line with a fixed count of numbers, so few that an array of them fits, and says how many bytes it has; or says why not, and
// leaves the buffer as it was.
fn write_kind<const N: usize, T: Numbered<N>>(said: &T, out: &mut [u8]) -> Result<usize, WriteFault>
    requires { N ≤ 100 }
    ensures { Written (T.says said.now) out.old out.new result }
{
    write_filled(T::template(), &said.numbers(), out)
}

// Writes a block line in this way. (By a name of its own, like a reading line: a public write_kind would make
// the trait public with its laws, for two names, which is no plainer.)
pub fn write_block(terms: &TermsInput, out: &mut [u8]) -> Result<usize, WriteFault>
    ensures { Written (of_block terms.now) out.old out.new result }
{
    write_kind(terms, out)
}

// Writes a curve line in the same way. Not by write_kind: which template it has goes by its points.
pub fn write_curve(line: &CurveLine, out: &mut [u8]) -> Result<usize, WriteFault>
    ensures { Written (curve_said line.now) out.old out.new result }
{
    let points = line.points().len();
    let template = curve_template(points);
    write_filled(
        &template[..curve_length(points)],
        line.numbers().as_slice(),
        out,
    )
}

// Writes a reading line in the same way.
pub fn write_reading(reading: &Reading, out: &mut [u8]) -> Result<usize, WriteFault>
    ensures { Written (of_reading reading.now) out.old out.new result }
{
    write_kind(reading, out)
}

// Writes any line in the same way.
pub fn write_line(line: &Line, out: &mut [u8]) -> Result<usize, WriteFault>
    ensures { Written (said_by line.now) out.old out.new result }
{
    match line {
        Line::Block(terms) => write_block(terms, out),
        Line::Curve(curve) => write_curve(curve, out),
        Line::Reading(reading) => write_reading(reading, out),
    }
}
