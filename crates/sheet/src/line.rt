// The three lines of a sheet.
use crate::curve_line::CurveLine;
use rules::{Reading, TermsInput};

// What a line says.
#[derive(Clone, Copy)]
pub enum Line {
    // The terms of a block.
    Block(TermsInput),
    // A response curve by points.
    Curve(CurveLine),
    // A reading of the battery.
    Reading(Reading),
}
