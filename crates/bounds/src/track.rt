// What is kept of a history to hold the next reading against.
ghost use Rattle.std.specs.Prelude.{◌≡◌, List, [], ◌∷◌, pos, None};
ghost use Rattle.curve.specs.Shape.{Shape};
ghost use Rattle.rules.specs.Terms.{sides};
ghost use Rattle.bounds.specs.Errors.{error_at};
ghost use Rattle.bounds.specs.Kept.{event, parts_of};

use crate::errors::Bounded;
use crate::kept_window::Window;
use crate::limits::Bounds;
use crate::phase::{Event, Phase};
use curve::{Curve, Sides};
use rules::{Accepted, Contract, Reading, Terms};

// The phase, the last accepted reading with its bounds, and its window. (The phase waits exactly where there is no last
// reading. Waiting is a case of it by a rule of the project: what comes next is one match on phase and event together.)
#[derive(Clone, Copy)]
pub struct Track {
    phase: Phase,
    last: Option<Bounded>,
    window: Window,
}

impl Track {
    ghost use Rattle.bounds.specs.Track.{reading_of, bounds_of, next_bounds, Stepped, Tracks};

    // Before any reading.
    pub fn new() -> Track
        ensures tracks { (held : Sides) (s : Shape) → Tracks held s [] result }
        ensures start { bounds_of result.last ≡ (pos 0, pos 0) }
    {
        Track {
            phase: Phase::Waiting,
            last: None,
            window: Window::new(),
        }
    }

    fn event(&self, held: Sides, reading: &Accepted) -> Event
        ensures { result ≡ event held (reading_of self.now.last) reading.now.reading }
    {
        match &self.last {
            None => Event::Plain,
            Some(last) => Event::of(held, &last.reading, reading),
        }
    }

    // The bounds of the next reading, from its raw ones: the first reading takes those.
    fn next_bounds<K: Curve>(&self, curve: &K, raw: Bounds) -> Bounds
        ensures { parts_of result ≡ next_bounds (K.Curve.shape curve.now).ramp self.now.last (parts_of raw) }
    {
        match &self.last {
            None => raw,
            Some(last) => raw.limited(curve, last.bounds),
        }
    }

    fn step<K: Curve>(&mut self, curve: &K, held: Sides, reading: Accepted)
        ensures { Stepped held (K.Curve.shape curve.now) reading self.old self.new }
    {
        let lag = curve.lag();
        let event = self.event(held, &reading);
        let phase = self.phase.after(lag, event);
        let mut window = self.window;
        window.take_in(lag, event.is_gap(), reading.reading().frequency);
        let raw = Bounds::raw(curve, held, phase.in_grace(), &window);
        let bounds = self.next_bounds(curve, raw);
        *self = Track {
            phase,
            last: Some(Bounded { reading, bounds }),
            window,
        };
    }

    // The reading is taken in: what was kept of a history is kept of the history with this reading.
    pub fn take_in<K: Curve>(&mut self, curve: &K, held: Sides, reading: Accepted)
        ensures { (h : List Reading) → Tracks held (K.Curve.shape curve.now) h self.old → Tracks held (K.Curve.shape curve.now) (reading.reading ∷ h) self.new }
    {
        self.step(curve, held, reading);
    }

    // The last accepted reading.
    pub fn last(&self) -> Option<Reading>
        ensures { result ≡ reading_of self.now.last }
    {
        self.last.map(|last| last.reading.reading())
    }

    // The bounds of the last accepted reading, in parts, the lower first.
    pub fn bounds(&self) -> (i64, i64)
        ensures { result ≡ bounds_of self.now.last }
    {
        self.last.map_or((0, 0), |last| last.bounds.into())
    }

    // The error of a contract at the last accepted reading; none where it is not judged for the contract. (Terms and contract stay
    // two: a struct of them would be made for each call.)
    pub fn error<K: Curve>(&self, curve: &K, terms: &Terms, contract: Contract) -> Option<u64>
        ensures none { self.now.last ≡ None → result ≡ None }
        ensures error { (r : Reading) (h : List Reading) → Tracks (sides terms.now) (K.Curve.shape curve.now) (r ∷ h) self.now → result ≡ error_at terms.now (K.Curve.shape curve.now) contract r h }
    {
        self.last.as_ref()?.error(curve, terms, contract)
    }
}
