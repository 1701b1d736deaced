// Lines read from bytes.
ghost use Rattle.std.specs.Prelude.{◌≡◌, ◌≤◌};
ghost use Rattle.sheet.specs.Kinds.{CurveRead, KindRead, openings};
ghost use Rattle.sheet.specs.Reads.{Answered, ReadsEveryLine};

use crate::curve_line::points::MOST_NUMBERS;
use crate::curve_line::{CurveLine, MOST_POINTS};
use crate::faults::ReadFault;
use crate::line::Line;
use crate::numbers::Numbered;
use crate::templates::{curve_length, curve_template};
use form::check_form;
use rules::{Reading, TermsInput};
use template::{LONGEST, read_filled};

// What a line of one kind says, where it has a fixed count of numbers: so few that an array of them fits.
fn read_kind<const N: usize, T: Numbered<N> + Drop>(bytes: &[u8]) -> Option<T>
    requires { N ≤ 100 }
    ensures { KindRead T.says bytes.now result }
{
    let mut numbers = [0; N];
    if read_filled(T::template(), bytes, &mut numbers) {
        Some(T::of_numbers(&numbers))
    } else {
        None
    }
}

// How many opening brackets there are: one for a curve line, and one for each of its points.
fn openings(bytes: &[u8]) -> usize
    ensures { result ≡ openings bytes.now }
{
    bytes.iter().filter(|b| **b == b'(').count()
}

// Not by read_kind: which template a curve line has goes by its points.
fn read_curve(bytes: &[u8]) -> Option<CurveLine>
    ensures { CurveRead bytes.now result }
{
    let points = openings(bytes).checked_sub(1)?;
    if points > MOST_POINTS {
        return None;
    }
    let mut room = [0; MOST_NUMBERS];
    let numbers = &mut room[..2 * points + 2];
    let template = curve_template(points);
    if read_filled(&template[..curve_length(points)], bytes, numbers) {
        Some(CurveLine::of_numbers(numbers))
    } else {
        None
    }
}

// The line that these bytes are, or why they are none.
pub fn read_line(bytes: &[u8]) -> Result<Line, ReadFault>
    ensures answered { Answered bytes.now result }
    ensures every { ReadsEveryLine bytes.now result }
{
    if bytes.len() > LONGEST {
        return Err(ReadFault::TooLong);
    }
    check_form(bytes)?;
    if let Some(reading) = read_kind::<5, Reading>(bytes) {
        return Ok(Line::Reading(reading));
    }
    if let Some(terms) = read_kind::<8, TermsInput>(bytes) {
        return Ok(Line::Block(terms));
    }
    match read_curve(bytes) {
        Some(line) => Ok(Line::Curve(line)),
        None => Err(ReadFault::NotALine),
    }
}
