// The frequencies in the window of the newest reading.
ghost use Rattle.std.specs.Prelude.{◌≡◌, ◌≤◌, []};
ghost use Rattle.std.specs.Option.{unwrap_or};
ghost use Rattle.curve.specs.Shape.{nominal};
ghost use Rattle.rules.specs.Least.{least};
ghost use Rattle.bounds.specs.Window.{lowest, highest};

use rules::{Falling, Order, Rising, least};

// The latest frequencies in mHz, the newest last, and how many of them are in the window. (An array and a count: no heap is a
// rule of the project, and a window is copied, which an `ArrayVec` is not. In a `Few` the newest would have no fixed place.)
#[derive(Clone, Copy)]
pub struct Window {
    latest: [i64; 11],
    count: usize,
    ghost few: { count ≤ 11 },
}

impl Window {
    ghost use Rattle.bounds.specs.Kept.{told, slid};

    // The window before any reading.
    pub fn new() -> Window
        ensures { told result ≡ [] }
    {
        Window {
            latest: [50_000; 11],
            count: 0,
        }
    }

    // One frequency more: after a gap it stands alone, and no more than `lag` stand before it.
    pub(crate) fn take_in(&mut self, lag: usize, after_gap: bool, frequency: i64)
        requires { lag ≤ 10 }
        ensures { told self.new ≡ slid lag after_gap (told self.old) frequency }
    {
        let before = if after_gap { 0 } else { self.count.min(lag) };
        self.latest.rotate_left(1);
        self.latest[10] = frequency;
        self.count = before + 1;
    }

    // The frequencies in the window, the oldest first.
    fn frequencies(&self) -> &[i64]
        ensures { result.now ≡ told self.now }
    {
        &self.latest[11 - self.count..]
    }

    // The one that no other comes before: the lowest or the highest, by the order. Nominal before any reading.
    pub fn first<O: Order<i64>>(&self) -> i64
        ensures { result ≡ unwrap_or (least O.Order.before (told self.now)) nominal }
    {
        least::<i64, O>(self.frequencies()).unwrap_or(50_000)
    }

    #[tactic(auto, using(rules::proofs::Orders::least_signed))]
    pub fn lowest(&self) -> i64
        ensures { result ≡ lowest (told self.now) }
    {
        self.first::<Rising>()
    }

    #[tactic(auto, using(rules::proofs::Orders::greatest_signed))]
    pub fn highest(&self) -> i64
        ensures { result ≡ highest (told self.now) }
    {
        self.first::<Falling>()
    }
}
