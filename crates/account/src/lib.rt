// The block account: readings go in, factors and payments come out.
#![tactic(auto)]

mod answer;
mod closed_block;
mod entry;
mod open_account;
mod runs;
mod state;
mod worked;

pub use answer::Answer;
pub use closed_block::ClosedBlock;
pub use closed_block::figures::PeriodFault;
pub use entry::{Entry, Verdict, VerdictExt};
pub use open_account::Account;
pub use runs::{Call, settle};
pub use worked::twelve_figures_stand;
