// Prints each figure beside what it should be, and counts how many are so.
#![tactic(auto)]

mod counts;
mod report;

pub use report::Report;
