// Open and sample.
ghost use Rattle.std.specs.Prelude.{◌≡◌, []};
ghost use Rattle.rules.specs.Terms.{sides};
ghost use Rattle.account.specs.Calls.{Carries, Opened, Advanced, Sampled};

use crate::answer::Answer;
use crate::open_account::Account;
use crate::state::State;
use curve::{Curve, Sided};
use rules::{Accepted, Reading, SampleFault, Terms};

// The curve as those see it who hold the contracts of these terms.
fn seen_by<C>(terms: &Terms, curve: C) -> Sided<C>
    ensures { result ≡ record { curve = curve; held = sides terms.now } }
{
    Sided {
        curve,
        held: terms.sides(),
    }
}

impl<C: Curve> Account<C> {
    // A new account on any curve; it refuses nothing.
    pub fn open(terms: Terms, curve: C) -> Account<C>
        ensures { Opened C.Curve.shape terms curve result }
    {
        Account {
            terms,
            curve: seen_by(&terms, curve),
            state: State::new(),
        }
    }

    // One reading. A refusal leaves the account as it was; an accepted reading is answered with its period, bounds and errors.
    pub fn sample(&mut self, reading: &Reading) -> Result<Answer, SampleFault>
        ensures { Sampled C.Curve.shape reading.now self.old self.new result }
    {
        self.advance(reading)
    }

    // The reading is checked after the last one accepted, and taken in where it passes.
    fn advance(&mut self, reading: &Reading) -> Result<Answer, SampleFault>
        ensures { Advanced C.Curve.shape reading.now self.old self.new result }
    {
        let accepted = Accepted::check(&self.terms, &self.state.last(), reading)?;
        Ok(self.state.take_in(&self.curve, &self.terms, accepted))
    }
}
