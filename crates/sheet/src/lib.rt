// The sheet: its lines, how they are read and written, and the faults that a sheet can have.
#![tactic(auto)]

mod checks;
mod curve_line;
mod faults;
mod line;
mod numbers;
mod reader;
mod round_trip;
mod templates;
mod writer;

pub use checks::{curve_of, terms_of};
pub use curve_line::CurveLine;
pub use faults::{Cause, ReadFault, SheetFault};
pub use line::Line;
pub use reader::read_line;
pub use round_trip::read_back;
pub use writer::{write_block, write_curve, write_line, write_reading};
