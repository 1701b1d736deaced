// Terms and readings that the cases hand in. The columns of a row have no names, here and in all tables of this program, so that
// rows stay short; the comment above a type names them. No derive of the library writes a `Display` that is not an error's.
use account::{Account, Answer, Entry};
use curve::Curve;
use rules::{Offer, Reading, SampleFault, Terms, TermsInput};
use std::alloc::{AllocError, Global};
use std::{fmt, io};

// A contract's quantity in MW, and its price in pence per MW and hour.
pub type Contracted = (i64, i64);

pub const NOT_HELD: Contracted = (0, 0);

pub const FIFTY: Contracted = (50, 1_701);

pub const THIRTY: Contracted = (30, 1_000);

fn offer((quantity, price): Contracted) -> Offer {
    Offer { quantity, price }
}

// Terms: L, S, A, B, the low contract and the high contract.
#[derive(Clone, Copy)]
pub struct Input(
    pub i64,
    pub i64,
    pub i64,
    pub i64,
    pub Contracted,
    pub Contracted,
);

impl From<Input> for TermsInput {
    fn from(input: Input) -> TermsInput {
        let Input(ticks, needed, a, b, low, high) = input;
        TermsInput {
            ticks,
            needed,
            a,
            b,
            low: offer(low),
            high: offer(high),
        }
    }
}

impl fmt::Display for Input {
    fn fmt<W: fmt::Write>(&self, f: &mut fmt::Formatter<W>) -> fmt::Result {
        let Input(ticks, needed, a, b, low, high) = *self;
        write!(
            f,
            "L {ticks} S {needed} A {a} B {b} low {low:?} high {high:?}"
        )
    }
}

// Terms with the usual tolerances; a period has so many ticks and needs so many readings.
pub fn usual(ticks: i64, needed: i64, low: Contracted, high: Contracted) -> io::Result<Terms> {
    let input = TermsInput::from(Input(ticks, needed, 30_000, 70_000, low, high));
    Terms::try_from(input).map_err(|_| io::Error::from(io::ErrorKind::InvalidInput))
}

// A reading: its tick, frequency in mHz, power and baseline in kW, and flag.
#[derive(Clone, Copy)]
pub struct Row(pub i64, pub i64, pub i64, pub i64, pub i64);

impl From<Row> for Reading {
    fn from(row: Row) -> Reading {
        let Row(tick, frequency, power, baseline, flag) = row;
        Reading {
            tick,
            frequency,
            power,
            baseline,
            flag,
        }
    }
}

impl fmt::Display for Row {
    fn fmt<W: fmt::Write>(&self, f: &mut fmt::Formatter<W>) -> fmt::Result {
        let Row(tick, frequency, power, baseline, flag) = *self;
        write!(
            f,
            "tick {tick}, {frequency} mHz, {power} kW, baseline {baseline} kW, flag {flag}"
        )
    }
}

// The readings as a batch takes them.
pub fn entries(heap: Global, rows: &[Row]) -> Result<Vec<Entry>, AllocError> {
    rows.iter()
        .map(|row| Entry::new(Reading::from(*row)))
        .collect(heap)
}

// Like readings at every tick from a first to a last, both given: the frequency in mHz, the power and the baseline in kW, and
// the flag. (The ticks are a pair and no range, as a range of the library is not `Copy`.)
#[derive(Clone, Copy)]
pub struct Stretch(pub (i64, i64), pub i64, pub i64, pub i64, pub i64);

impl Stretch {
    fn at(&self, tick: i64) -> Row {
        let Stretch(_, frequency, power, baseline, flag) = *self;
        Row(tick, frequency, power, baseline, flag)
    }

    // Hands the readings in, and tells what the last of them is answered.
    pub fn hand_in<C: Curve>(&self, account: &mut Account<C>) -> Result<Answer, SampleFault> {
        let (first, last) = self.0;
        for tick in first..last {
            let _ = account.sample(&Reading::from(self.at(tick)));
        }
        account.sample(&Reading::from(self.at(last)))
    }
}

impl fmt::Display for Stretch {
    fn fmt<W: fmt::Write>(&self, f: &mut fmt::Formatter<W>) -> fmt::Result {
        let (first, last) = self.0;
        if first < last {
            write!(f, "from tick {first}, ")?;
        }
        let row = self.at(last);
        write!(f, "{row}")
    }
}

// Hands in stretches one after the other, whatever their readings are answered.
pub fn hand_in<C: Curve>(account: &mut Account<C>, stretches: &[Stretch]) {
    for stretch in stretches {
        let _ = stretch.hand_in(account);
    }
}
