// What a block or curve line says, checked; a refusal of the layer below becomes the cause of the sheet's fault.
ghost use Rattle.sheet.specs.Checks.{CheckedBlock, CheckedCurve};

use crate::curve_line::CurveLine;
use crate::faults::Cause;
use curve::Points;
use rules::{Terms, TermsInput};

// The terms of a block line. A function and no TryFrom: its Err would be the rules' own fault, and here it is the sheet's cause.
pub fn terms_of(input: &TermsInput) -> Result<Terms, Cause>
    ensures { CheckedBlock input.now result }
{
    Ok(Terms::try_from(*input)?)
}

// The curve of a curve line. A function too: one form for both lines is plainer than a TryFrom for one of them.
pub fn curve_of(line: &CurveLine) -> Result<Points, Cause>
    ensures { CheckedCurve line.now result }
{
    let mut points = Points::new();
    points.load(line.points(), line.ramp, line.lag)?;
    Ok(points)
}
