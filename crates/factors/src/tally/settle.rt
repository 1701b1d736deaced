// The settlement of a tally.
ghost use Rattle.std.specs.Prelude.{◌≡◌, List};
ghost use Rattle.factors.specs.declared.judgement.Judgement.{Judgement as Judged};
ghost use Rattle.factors.specs.Factors.{tabled};
ghost use Rattle.factors.specs.Money.{settled, told};
ghost use Rattle.factors.specs.Promises.{Promised};
ghost use Rattle.factors.specs.Tally.{Tallied};

use crate::money::come_to;
use crate::settlement::{PeriodFigures, Settlement};
use crate::tally::Tally;
use rules::{Contract, PERIODS, Terms};
use std::array;

impl Tally {
    // The figures of every period, in order.
    #[tactic(auto, using(crate::proofs::FromFn::from_fn_same), unfolding(crate::specs::Factors::tabled))]
    fn tabled(&self, terms: &Terms) -> [PeriodFigures; PERIODS]
        ensures { result ≡ tabled terms.now self.now.records }
    {
        array::from_fn(|p| self.records[p].figures(terms, p as u64))
    }

    // What the contract comes to: the figures of every period, the sum over the payable ones, the lowest factor and the
    // payment. (Terms and contract stay two: a struct of them would be made for each call.)
    #[tactic(auto, using(crate::proofs::LowestFacts::tabled_most))]
    pub fn settle(&self, terms: &Terms, contract: Contract) -> Settlement
        ensures value { (js : List Judged) → Tallied self.now js → told result ≡ settled terms.now contract js }
        ensures promised { (js : List Judged) → Tallied self.now js → Promised terms.now contract js (told result) }
    {
        come_to(terms, contract, self.tabled(terms))
    }
}
