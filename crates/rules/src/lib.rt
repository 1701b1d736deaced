// Terms and readings with their checks, flag changes, and the least of a run: what the rules say of single values.
#![tactic(auto)]

mod accepted;
mod flags;
mod reading;
mod run;
mod terms;
mod terms_input;

pub use accepted::Accepted;
pub use flags::brings_back;
pub use reading::{Reading, SampleFault};
pub use run::{Falling, Order, Rising, least, orders_of_numbers};
pub use terms::check::check_terms;
pub use terms::{Contract, Held, PERIODS, Terms};
pub use terms_input::{Offer, TermsFault, TermsInput};
