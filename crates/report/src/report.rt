// A report: lines printed one after the other. Which bytes a runtime prints no contract can say.
ghost use Rattle.std.specs.Prelude.{◌≡◌, if◌then◌else◌, codes};
ghost use Rattle.std.specs.Result.{result_eq};
ghost use Rattle.report.specs.Counts.{uncounted, counted};
ghost use Rattle.report.specs.declared.counts.Counts.{Counts};

use crate::counts::Counts;
use either::Either;
use std::fmt::Display;
use std::io;
use std::marker::Model;

// Prints with a runtime, and counts.
#[derive(Drop)]
pub struct Report<R> {
    rt: R,
    counts: Counts,
}

impl<R> Model for Report<R> {
    ghost Value = { R × Counts };

    ghost view = { λ r. (r.rt, r.counts) };
}

impl<R: Print> Report<R> {
    pub fn new(rt: R) -> Report<R>
        ensures { result ≡ (rt, uncounted) }
    {
        Report {
            rt,
            counts: Counts::default(),
        }
    }

    // What it prints with.
    pub fn runtime(&self) -> &R
        ensures { result.now ≡ self.now.0 }
    {
        &self.rt
    }

    // A line above some figures. (No contract: it changes nothing, and only prints.)
    pub fn title<T: Display + Drop>(&self, text: T) -> io::Result<()> {
        self.rt.println(text)
    }

    // Counts a figure, and tells how its line ends.
    fn verdict(&mut self, same: bool) -> &'static str
        ensures told { result.now ≡ (if same then codes "ok" else codes "WRONG") }
        ensures counted { self.new ≡ (self.old.0, counted same self.old.1) }
    {
        self.counts.count(same);
        if same { "ok" } else { "WRONG" }
    }

    // A figure, by its name, beside what it should be.
    pub fn compare<N: Display + Drop, F: Display + PartialEq + Drop>(
        &mut self,
        name: N,
        figure: F,
        should_be: F,
    ) -> io::Result<()>
        ensures { self.new ≡ (self.old.0, counted (F.eq figure should_be) self.old.1) }
    {
        self.beside(format_args!("{name}:"), figure, should_be)
    }

    // A figure, by words that lead to it, beside what it should be.
    pub fn beside<N: Display + Drop, F: Display + PartialEq + Drop>(
        &mut self,
        words: N,
        figure: F,
        should_be: F,
    ) -> io::Result<()>
        ensures { self.new ≡ (self.old.0, counted (F.eq figure should_be) self.old.1) }
    {
        let verdict = self.verdict(figure == should_be);
        println!(self.rt; "  {words} {figure}, should be {should_be}: {verdict}")
    }

    // What a call that may refuse comes to, by its name, beside what it should come to: by the value, or by the refusal.
    pub fn outcome<N: Display + Drop, T: Display + PartialEq + Drop, E: Display + PartialEq + Drop>(
        &mut self,
        name: N,
        outcome: Result<T, E>,
        should_be: Result<T, E>,
    ) -> io::Result<()>
        ensures { self.new ≡ (self.old.0, counted (result_eq T.eq E.eq outcome should_be) self.old.1) }
    {
        self.compare(name, Either::from(outcome), Either::from(should_be))
    }

    // Something that should be so.
    pub fn holds<N: Display + Drop>(&mut self, what: N, holds: bool) -> io::Result<()>
        ensures { self.new ≡ (self.old.0, counted holds self.old.1) }
    {
        let verdict = self.verdict(holds);
        println!(self.rt; "  {what}: {verdict}")
    }

    // The last line: how many figures are as they should be, and how many are not. (No contract: it changes nothing, and only
    // prints.)
    pub fn total(&self) -> io::Result<()> {
        let Counts { right, wrong } = self.counts;
        println!(self.rt; "{right} figures ok, {wrong} wrong")
    }
}
