// Forms: the brackets, words and numbers that every line of a sheet is made of, and the first byte of a line that does not fit.
#![tactic(auto)]

mod check;
mod misfit;
mod state;

pub use check::check_form;
pub use misfit::{Kind, Misfit};
