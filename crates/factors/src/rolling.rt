// The rolling error of one contract: the least of a reading's error and the three before it. It exists where all four are
// judged, on successive ticks, in one period.
ghost use Rattle.std.specs.Prelude.{◌≡◌, cond, List, [], ◌∷◌};
ghost use Rattle.factors.specs.declared.judgement.Judgement.{Judgement as Judged};
ghost use Rattle.factors.specs.Rolling.{Runs, rolling, joins, run, least_of_four, extends, leading, errors};

use crate::judgement::Judgement;
use rules::Rising;

// The tick and the period of the newest reading of a run of judged readings on successive ticks in one period; its error, and
// those of the three before it, newest first: none from where the run began.
#[derive(Clone, Copy)]
struct Run {
    tick: u64,
    period: u64,
    error: u64,
    before: [Option<u64>; 3],
}

// The run that the newest reading belongs to, if it is judged.
#[derive(Clone, Copy)]
pub struct Rolling {
    run: Option<Run>,
}

impl Run {
    // Whether the reading follows on the newest of the run: on the next tick, in the same period.
    fn extends(&self, j: &Judgement) -> bool
        ensures { result ≡ extends self.now j.now }
    {
        j.tick.checked_sub(self.tick) == Some(1) && j.period == self.period
    }

    // The least of the newest four errors, where the run has four.
    fn least_of_four(&self) -> Option<u64>
        ensures { result ≡ least_of_four (errors self.now) }
    {
        let [Some(second), Some(third), Some(fourth)] = self.before else {
            return None;
        };
        rules::least::<u64, Rising>(&[self.error, second, third, fourth])
    }
}

impl Rolling {
    pub fn new() -> Rolling
        ensures { Runs result [] }
    {
        Rolling { run: None }
    }

    // The errors of the three readings before this one, newest first, as far as they are of one run with it.
    fn errors_before(&self, j: &Judgement) -> [Option<u64>; 3]
        ensures { (js : List Judged) → Runs self.now js → leading result ≡ cond (joins j.now js) (run 3 js) [] }
    {
        match self.run {
            Some(run) if run.extends(j) => [Some(run.error), run.before[0], run.before[1]],
            _ => [None; 3],
        }
    }

    // Takes in the next reading, and tells its rolling error. One that is not judged, or does not follow on the one before,
    // starts the run again.
    pub fn take_in(&mut self, j: &Judgement) -> Option<u64>
        ensures { (js : List Judged) → Runs self.old js → Runs self.new (j.now ∷ js) × (result ≡ rolling (j.now ∷ js)) }
    {
        let Some(error) = j.error else {
            self.run = None;
            return None;
        };
        let run = Run {
            tick: j.tick,
            period: j.period,
            error,
            before: self.errors_before(j),
        };
        self.run = Some(run);
        run.least_of_four()
    }
}
