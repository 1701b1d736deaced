// What the readings of a block come to for one contract.
ghost use Rattle.std.specs.Prelude.{◌≡◌, ℕ, ◌<◌, List, [], ◌∷◌, length, Option as Optional};
ghost use Rattle.factors.specs.declared.judgement.Judgement.{Judgement as Judged};
ghost use Rattle.factors.specs.Tally.{Tallied, most_readings, with_reading};

use crate::judgement::Judgement;
use crate::period_record::PeriodRecord;
use crate::rolling::Rolling;
use rules::PERIODS;

pub mod settle;

// The rolling error at the newest reading, and the record of each period.
#[derive(Clone, Copy)]
pub struct Tally {
    rolling: Rolling,
    records: [PeriodRecord; PERIODS],
}

impl Tally {
    pub fn new() -> Tally
        ensures { Tallied result [] }
    {
        Tally {
            rolling: Rolling::new(),
            records: [PeriodRecord::new(); PERIODS],
        }
    }

    // Lends the record of the reading's period; a period past the last has none. (`get_mut` was tried: of the records the checker
    // then knows only how many there are.)
    fn note(&mut self, j: &Judgement, rolling: Option<u64>)
        ensures same { self.new.rolling ≡ self.old.rolling }
        ensures records { self.new.records ≡ with_reading self.old.records j.now rolling }
    {
        if j.period < PERIODS as u64 {
            self.records[j.period as usize].take_in(j, rolling);
        }
    }

    // Takes in a reading, which alters only the record of its own period.
    #[tactic(auto, using(crate::proofs::TallyFacts::taken_in))]
    pub fn take_in(&mut self, j: &Judgement)
        ensures own { (o : Optional ℕ) × (self.new.records ≡ with_reading self.old.records j.now o) }
        ensures tallied { (js : List Judged) → length js < most_readings → Tallied self.old js → Tallied self.new (j.now ∷ js) }
    {
        let rolling = self.rolling.take_in(j);
        self.note(j, rolling);
    }
}
