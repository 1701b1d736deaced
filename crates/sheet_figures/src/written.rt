// Lines that are written, with what stands in the buffer then and what is read back; and lines that are not.
use crate::answer::Written;
use crate::long_lines::{POINTS_23, POINTS_23_OVER, POINTS_24};
use crate::visible::Visible;
use curve::Point;
use report::Report;
use rules::{Offer, Reading, TermsInput};
use sheet::{CurveLine, Line, read_back, read_line, write_block, write_curve, write_reading};
use std::io;
use template::WriteFault;

// What a line says; a curve by its ramp, lag and points. (A constant cannot be a `Line`: a curve line comes of a call that may
// refuse.)
#[derive(Clone, Copy)]
enum Said {
    Block(TermsInput),
    Curve(i64, i64, &'static [Point]),
    Reading(Reading),
}

// What a line says, and its text: the one that should be written, or one that is too long to be written.
#[derive(Clone, Copy)]
struct Entry(Said, &'static [u8]);

// The greatest and the least number of ten digits, and their neighbours of eleven.
const MOST: i64 = 9_999_999_999;

const LEAST: i64 = -9_999_999_999;

const OVER_MOST: i64 = 10_000_000_000;

const UNDER_LEAST: i64 = -10_000_000_000;

const NOT_HELD: Offer = Offer {
    quantity: 0,
    price: 0,
};

const TERMS: TermsInput = TermsInput {
    ticks: 20,
    needed: 5,
    a: 30_000,
    b: 70_000,
    low: Offer {
        quantity: 50,
        price: 1_701,
    },
    high: NOT_HELD,
};

// All outside their ranges.
const WILD_TERMS: TermsInput = TermsInput {
    ticks: LEAST,
    needed: MOST,
    a: LEAST,
    b: -1,
    low: Offer {
        quantity: LEAST,
        price: MOST,
    },
    high: Offer {
        quantity: 101,
        price: LEAST,
    },
};

const READING: Reading = Reading {
    tick: 1,
    frequency: 50_000,
    power: 52_500,
    baseline: -7,
    flag: 3,
};

const CONTAINMENT: [Point; 3] = [
    Point {
        deviation: 15,
        parts: 0,
    },
    Point {
        deviation: 200,
        parts: 11_100,
    },
    Point {
        deviation: 500,
        parts: 222_000,
    },
];

const ONE: Point = Point {
    deviation: 1,
    parts: 1,
};

const WRITTEN: [Entry; 8] = [
    Entry(
        Said::Block(TERMS),
        b"(block 20 5 (band 30000 70000) (low 50 1701) (high 0 0))",
    ),
    Entry(
        Said::Block(WILD_TERMS),
        b"(block -9999999999 9999999999 (band -9999999999 -1) (low -9999999999 9999999999) (high 101 -9999999999))",
    ),
    Entry(Said::Reading(READING), b"(s 1 50000 52500 -7 3)"),
    Entry(
        Said::Reading(Reading {
            tick: MOST,
            frequency: LEAST,
            power: MOST,
            baseline: LEAST,
            flag: -1,
        }),
        b"(s 9999999999 -9999999999 9999999999 -9999999999 -1)",
    ),
    Entry(Said::Curve(5, 2, &[]), b"(curve 5 2)"),
    Entry(
        Said::Curve(22_200, 10, &CONTAINMENT),
        b"(curve 22200 10 (p 15 0) (p 200 11100) (p 500 222000))",
    ),
    Entry(
        Said::Curve(
            -1,
            LEAST,
            &[Point {
                deviation: MOST,
                parts: LEAST,
            }],
        ),
        b"(curve -1 -9999999999 (p 9999999999 -9999999999))",
    ),
    Entry(Said::Curve(1_000, 100, &[ONE; 23]), &POINTS_23),
];

// A number of eleven digits and more, a text of more than 200 bytes, or more than 23 points.
const NOT_WRITTEN: [Entry; 9] = [
    Entry(
        Said::Block(TermsInput {
            ticks: OVER_MOST,
            ..TERMS
        }),
        b"(block 10000000000 5 (band 30000 70000) (low 50 1701) (high 0 0))",
    ),
    Entry(
        Said::Block(TermsInput {
            high: Offer {
                quantity: 0,
                price: UNDER_LEAST,
            },
            ..TERMS
        }),
        b"(block 20 5 (band 30000 70000) (low 50 1701) (high 0 -10000000000))",
    ),
    Entry(
        Said::Reading(Reading {
            tick: OVER_MOST,
            ..READING
        }),
        b"(s 10000000000 50000 52500 -7 3)",
    ),
    Entry(
        Said::Reading(Reading {
            flag: i64::MIN,
            ..READING
        }),
        b"(s 1 50000 52500 -7 -9223372036854775808)",
    ),
    Entry(
        Said::Curve(OVER_MOST, 10, &CONTAINMENT),
        b"(curve 10000000000 10 (p 15 0) (p 200 11100) (p 500 222000))",
    ),
    Entry(
        Said::Curve(5, i64::MAX, &[]),
        b"(curve 5 9223372036854775807)",
    ),
    Entry(
        Said::Curve(
            5,
            2,
            &[Point {
                deviation: 0,
                parts: UNDER_LEAST,
            }],
        ),
        b"(curve 5 2 (p 0 -10000000000))",
    ),
    Entry(Said::Curve(10_000, 100, &[ONE; 23]), &POINTS_23_OVER),
    Entry(Said::Curve(1, 1, &[ONE; 24]), &POINTS_24),
];

// Whether a line that was read says this. (A match: `==` of lines would ask one of `Few`, which no derive could write, as the
// places behind what it keeps do not count.)
fn is_said(said: Said, line: Line) -> bool {
    match (said, line) {
        (Said::Block(terms), Line::Block(read)) => terms == read,
        (Said::Curve(ramp, lag, points), Line::Curve(read)) => ramp == read.ramp
            && lag == read.lag
            && points == read.points(),
        (Said::Reading(reading), Line::Reading(read)) => reading == read,
        _ => false,
    }
}

// Whether the text is read as what it says.
fn is_read(entry: &Entry) -> bool {
    let Entry(said, text) = *entry;
    read_line(text).is_ok_and(|line| is_said(said, line))
}

fn line_of(said: &Said) -> Result<Line, WriteFault> {
    Ok(match *said {
        Said::Block(terms) => Line::Block(terms),
        Said::Curve(ramp, lag, points) => Line::Curve(CurveLine::new(ramp, lag, points)?),
        Said::Reading(reading) => Line::Reading(reading),
    })
}

// By the writer of each kind, so that each is run.
fn write(said: &Said, out: &mut [u8]) -> Result<Written, WriteFault> {
    let line = line_of(said)?;
    let count = match line {
        Line::Block(terms) => write_block(&terms, out)?,
        Line::Curve(curve) => write_curve(&curve, out)?,
        Line::Reading(reading) => write_reading(&reading, out)?,
    };
    Ok(Written(count))
}

// What comes back of a line that is written into 200 bytes and read from there.
fn back(said: &Said) -> Result<Line, WriteFault> {
    let mut buffer = [0; 200];
    read_back(&line_of(said)?, &mut buffer)
}

fn comes_back(said: Said) -> bool {
    back(&said).is_ok_and(|line| is_said(said, line))
}

// Writes into a buffer of so many bytes, each a #; should answer the count of bytes, or the number of a refusal (which
// docs/SHEET.md gives, and which a fault's name would not show). Where the line is written its text stands at the front then;
// where it is not, the buffer is as it was.
fn write_into(
    report: &mut Report<impl Print + AllocGlobal>,
    room: usize,
    entry: &Entry,
    should_be: Result<Written, u32>,
) -> io::Result<()> {
    let Entry(said, text) = *entry;
    let heap = report.runtime().alloc();
    let mut buffer = vec![in heap; b'#'; room]?;
    let mut expected = Vec::new(heap);
    if should_be.is_ok() {
        expected.extend_from_slice(text)?;
    }
    expected.resize(room, b'#')?;
    report.outcome(
        format_args!("write into {room} bytes"),
        write(&said, &mut buffer).map_err(WriteFault::number),
        should_be,
    )?;
    report.beside("the buffer then", Visible(&buffer), Visible(&expected))
}

fn show_written(report: &mut Report<impl Print + AllocGlobal>, entry: &Entry) -> io::Result<()> {
    let length = entry.1.len();
    let count = Ok(Written(length));
    write_into(report, length.saturating_add(3), entry, count)?;
    write_into(report, length, entry, count)?;
    write_into(report, length.saturating_sub(1), entry, Err(28))?;
    report.holds("read as what it says", is_read(entry))?;
    report.holds("written and read back as it was", comes_back(entry.0))
}

fn show_not_written(
    report: &mut Report<impl Print + AllocGlobal>,
    entry: &Entry,
) -> io::Result<()> {
    let length = entry.1.len();
    write_into(report, length, entry, Err(27))?;
    write_into(report, length.saturating_sub(1), entry, Err(27))
}

pub fn show(report: &mut Report<impl Print + AllocGlobal>) -> io::Result<()> {
    for entry in &WRITTEN {
        report.title(format_args!("The line {}", Visible(entry.1)))?;
        show_written(report, entry)?;
    }
    for entry in &NOT_WRITTEN {
        report.title(format_args!("The line {}", Visible(entry.1)))?;
        show_not_written(report, entry)?;
    }
    Ok(())
}
