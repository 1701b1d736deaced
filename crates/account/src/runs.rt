// A whole run: an account is opened, every call is made, and the block is closed.
ghost use Rattle.std.specs.Prelude.{◌≡◌};
ghost use Rattle.account.specs.Runs.{entries_of, is_batch, Made, Settles};

use crate::closed_block::ClosedBlock;
use crate::entry::Entry;
use crate::open_account::Account;
use curve::Curve;
use rules::Terms;

// A call that hands in one reading, or a batch of them.
#[derive(Drop)]
pub enum Call {
    Sample(Entry),
    Batch(Vec<Entry>),
}

impl<C: Curve> Account<C> {
    // Makes a call; its verdicts are written beside its readings.
    fn make(&mut self, call: &mut Call)
        ensures kind { is_batch call.new ≡ is_batch call.old }
        ensures made { Made C.Curve.shape (entries_of call.old) (entries_of call.new) self.old self.new }
    {
        match call {
            Call::Sample(item) => {
                let _ = self.mark(item);
            }
            Call::Batch(entries) => {
                let _ = self.batch(entries.as_mut_slice());
            }
        }
    }
}

// Opens an account, makes the calls in their order, and closes the block.
pub fn settle<C: Curve>(terms: Terms, curve: C, calls: &mut [Call]) -> ClosedBlock<C>
    ensures { Settles C.Curve.shape terms curve calls.old calls.new result }
{
    let mut account = Account::open(terms, curve);
    for call in calls.iter_mut() {
        account.make(call);
    }
    account.close()
}
