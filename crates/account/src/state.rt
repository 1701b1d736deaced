// What an account keeps from reading to reading.
ghost use Rattle.std.specs.Prelude.{◌≡◌, ◌/◌, ◌<◌, List, [], ◌∷◌, length, Option, unsigned_abs};
ghost use Rattle.account.specs.History.{period, judgements};
ghost use Rattle.account.specs.State.{Kept, TakenIn};
ghost use Rattle.bounds.specs.Track.{reading_of};
ghost use Rattle.factors.specs.Money.{settled, told};
ghost use Rattle.curve.specs.Shape.{Shape};
ghost use Rattle.rules.specs.Flags.{available};

use crate::answer::Answer;
use bounds::Track;
use curve::Curve;
use factors::{Judgement, Settlement, Tally};
use rules::{Accepted, Contract, Reading, Terms};

// The newest reading with its window, phase and bounds, and what the readings come to for each contract. (Two fields for low and
// high: see `Contract::pick`.)
#[derive(Clone, Copy)]
pub struct State {
    track: Track,
    low: Tally,
    high: Tally,
}

// What a reading means for a contract, where this is its error.
fn judgement(terms: &Terms, contract: Contract, reading: &Accepted, error: Option<u64>) -> Judgement
    ensures { result ≡ record { tick = unsigned_abs reading.now.reading.tick; period = period terms.now reading.now.reading; available = available contract reading.now.reading.flag; error = error } }
{
    let tick = reading.tick();
    Judgement {
        tick,
        period: tick / terms.ticks(),
        available: reading.available(contract),
        error,
    }
}

impl State {
    // Before any reading.
    pub fn new() -> State
        ensures { (t : Terms) (s : Shape) → Kept t s [] result }
    {
        State {
            track: Track::new(),
            low: Tally::new(),
            high: Tally::new(),
        }
    }

    // The last accepted reading.
    pub fn last(&self) -> Option<Reading>
        ensures { result ≡ reading_of self.now.track.last }
    {
        self.track.last()
    }

    // An accepted reading is taken in, and answered. (Low and high are judged in two statements: a closure for both was tried, and
    // the proof knows of its answer only what a clause on it would say again of `judgement` and `error`.)
    pub fn take_in<K: Curve>(&mut self, curve: &K, terms: &Terms, reading: Accepted) -> Answer
        ensures { TakenIn terms.now (K.Curve.shape curve.now) reading.reading self.old self.new result }
    {
        self.track.take_in(curve, terms.sides(), reading);
        let low = judgement(
            terms,
            Contract::Low,
            &reading,
            self.track.error(curve, terms, Contract::Low),
        );
        let high = judgement(
            terms,
            Contract::High,
            &reading,
            self.track.error(curve, terms, Contract::High),
        );
        self.low.take_in(&low);
        self.high.take_in(&high);
        Answer {
            period: low.period,
            bounds: self.track.bounds(),
            low: low.error,
            high: high.error,
        }
    }

    // What the readings come to for a contract. (Terms and contract stay two: a struct of them would be made for each call.)
    pub fn settle(&self, terms: &Terms, contract: Contract) -> Settlement
        ensures { (s : Shape) (h : List Reading) → Kept terms.now s h self.now → told result ≡ settled terms.now contract (judgements terms.now s contract h) }
    {
        contract.pick(&self.low, &self.high).settle(terms, contract)
    }
}
