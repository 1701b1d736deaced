// Text with numbers in it: how a number is read and written, and templates with a number in each hole.
#![tactic(auto)]

mod digits;
mod fault;
mod number;
mod reading;
mod text;
mod writing;

pub use fault::WriteFault;
pub use reading::read_filled;
pub use text::LONGEST;
pub use writing::write_filled;
