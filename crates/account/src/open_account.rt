// An account of a block that is still open.
use crate::state::State;
use curve::Sided;
use rules::Terms;

pub mod batches;
pub mod calls;
pub mod closing;

// The checked terms, the curve as the held contracts see it, and what is kept of the readings.
#[derive(Drop)]
pub struct Account<C> {
    terms: Terms,
    curve: Sided<C>,
    state: State,
}
