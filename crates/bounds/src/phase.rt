// What comes next: waiting for the first reading, in grace, or following the curve.
ghost use Rattle.std.specs.Prelude.{◌≡◌, Some, None};
ghost use Rattle.bounds.specs.Kept.{event, after, in_grace, is_gap};
ghost use Rattle.bounds.specs.Window.{successive};

use curve::Sides;
use rules::{Accepted, brings_back};

#[derive(Clone, Copy, PartialEq, Eq, Debug)]
pub enum Phase {
    // No reading has come.
    Waiting,
    // In grace, which so many readings more will be in.
    Grace(usize),
    // The bounds follow the curve.
    Following,
}

// What arrives: a reading on the next tick, one after a gap, or one on the next tick that brings a held contract back.
#[derive(Clone, Copy, PartialEq, Eq, Debug)]
pub enum Event {
    Plain,
    Gap,
    ContractBack,
}

impl Phase {
    // The phase of the reading that arrives, where grace lasts `lag` readings after the one that opens it.
    pub fn after(self, lag: usize, event: Event) -> Phase
        ensures { result ≡ after lag self event }
    {
        match (self, event) {
            (Phase::Waiting, _) | (_, Event::Gap) | (_, Event::ContractBack) => Phase::Grace(lag),
            (Phase::Grace(0), Event::Plain) | (Phase::Following, Event::Plain) => Phase::Following,
            (Phase::Grace(left), Event::Plain) => Phase::Grace(left - 1),
        }
    }

    pub fn in_grace(self) -> bool
        ensures { result ≡ in_grace self }
    {
        matches!(self, Phase::Grace(_))
    }
}

fn successive(last: &Accepted, reading: &Accepted) -> bool
    ensures { result ≡ successive last.now.reading reading.now.reading }
{
    reading.tick() == last.tick() + 1
}

impl Event {
    pub fn is_gap(self) -> bool
        ensures { result ≡ is_gap self }
    {
        matches!(self, Event::Gap)
    }

    // What the reading is after the last one that was accepted.
    pub fn of(held: Sides, last: &Accepted, reading: &Accepted) -> Event
        ensures { result ≡ event held (Some last.now.reading) reading.now.reading }
    {
        if !successive(last, reading) {
            Event::Gap
        } else if brings_back(held, last, reading) {
            Event::ContractBack
        } else {
            Event::Plain
        }
    }
}
