// What every layer stands on: a few things kept in place, and checks in a stated order.
#![tactic(auto)]

mod checks;
mod few;

pub use checks::require;
pub use few::Few;
