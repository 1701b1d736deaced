// The close of a block.
ghost use Rattle.account.specs.Closed.{Closes};

use crate::closed_block::ClosedBlock;
use crate::open_account::Account;
use curve::{Curve, Sided};
use rules::Contract;

impl<C: Curve> Account<C> {
    // Closes the block: it refuses nothing and uses up the account.
    pub fn close(self) -> ClosedBlock<C>
        ensures { Closes C.Curve.shape self result }
    {
        let Account {
            terms,
            curve,
            state,
        } = self;
        let Sided { curve, held: _ } = curve;
        ClosedBlock::new(
            curve,
            state.settle(&terms, Contract::Low),
            state.settle(&terms, Contract::High),
        )
    }
}
