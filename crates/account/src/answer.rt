// What a sample call answers.

// The period of the reading, its bounds in parts with the lower first, and its error for each contract in millionths of the
// contracted quantity: none where the reading is not judged for it. (Two fields for low and high: see `Contract::pick`.)
#[derive(Clone, Copy)]
pub struct Answer {
    pub period: u64,
    pub bounds: (i64, i64),
    pub low: Option<u64>,
    pub high: Option<u64>,
}
