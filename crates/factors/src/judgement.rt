// What one accepted reading means for one contract.

// The reading's tick and period, whether the contract was available, and the error in millionths of the contracted quantity:
// none where the reading is not judged for the contract.
#[derive(Clone, Copy)]
pub struct Judgement {
    pub tick: u64,
    pub period: u64,
    pub available: bool,
    pub error: Option<u64>,
}
