// Rolling errors, factors and money of one contract, over the judgements of its readings.
#![tactic(auto)]

mod factors;
mod judgement;
mod money;
mod period_record;
mod rolling;
mod settlement;
mod tally;
mod worst;

pub use factors::{WHOLE, factor, factor_figures};
pub use judgement::Judgement;
pub use period_record::PeriodRecord;
pub use rolling::Rolling;
pub use settlement::{ByFactor, PeriodFigures, Settlement};
pub use tally::Tally;
pub use worst::Worst;
