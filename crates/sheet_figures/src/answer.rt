// What reading and writing a line answer. Each `Display` but an error's is written by hand: no derive of the library writes one.
use crate::visible::Visible;
use report::Report;
use sheet::{Line, ReadFault, SheetFault, read_line};
use std::{fmt, io};
use thiserror::Error;

// Which line was read; a curve has so many points.
#[derive(Clone, Copy, PartialEq, Eq)]
pub enum Kind {
    Block,
    Curve(usize),
    Reading,
}

impl From<Line> for Kind {
    fn from(line: Line) -> Kind {
        match line {
            Line::Block(_) => Kind::Block,
            Line::Curve(curve) => Kind::Curve(curve.points().len()),
            Line::Reading(_) => Kind::Reading,
        }
    }
}

impl fmt::Display for Kind {
    fn fmt<W: fmt::Write>(&self, f: &mut fmt::Formatter<W>) -> fmt::Result {
        match *self {
            Kind::Block => write!(f, "a block"),
            Kind::Curve(points) => write!(f, "a curve, points {points}"),
            Kind::Reading => write!(f, "a reading"),
        }
    }
}

// The number of a refusal, and the byte. (A number, since the numbers that docs/SHEET.md gives are checked, which a fault's name
// would not show.)
#[derive(Clone, Copy, PartialEq, Eq, Debug, Error)]
#[error("{0} at byte {1}")]
pub struct RefusedAt(pub u32, pub usize);

impl From<ReadFault> for RefusedAt {
    fn from(fault: ReadFault) -> RefusedAt {
        RefusedAt(fault.number(), fault.byte())
    }
}

impl From<SheetFault> for RefusedAt {
    fn from(fault: SheetFault) -> RefusedAt {
        RefusedAt(fault.number(), fault.byte)
    }
}

// So many bytes were written.
#[derive(Clone, Copy, PartialEq, Eq)]
pub struct Written(pub usize);

impl fmt::Display for Written {
    fn fmt<W: fmt::Write>(&self, f: &mut fmt::Formatter<W>) -> fmt::Result {
        write!(f, "{} bytes", self.0)
    }
}

// Bytes, and what reading them should answer. (No names for the columns of rows in this program: so rows stay short.)
#[derive(Clone, Copy)]
pub struct Case(pub &'static [u8], pub Result<Kind, RefusedAt>);

fn read(line: &[u8]) -> Result<Kind, RefusedAt> {
    Ok(Kind::from(read_line(line)?))
}

pub fn read_each(report: &mut Report<impl Print>, title: &str, cases: &[Case]) -> io::Result<()> {
    report.title(title)?;
    for Case(line, should_be) in cases {
        report.outcome(
            format_args!("read {}", Visible(line)),
            read(line),
            *should_be,
        )?;
    }
    Ok(())
}
