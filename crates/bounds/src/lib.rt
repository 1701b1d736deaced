// Window, grace, bounds and errors: what a reading is held against.
#![tactic(auto)]

mod errors;
mod kept_window;
mod kilowatts;
mod limits;
mod parts;
mod phase;
mod track;

pub use track::Track;
