// Faults of a sheet, made of the fault of the layer that turned a line down.
use crate::answer::RefusedAt;
use report::Report;
use rules::{Offer, SampleFault, TermsInput};
use sheet::{Cause, CurveLine, SheetFault, curve_of, read_line, terms_of};
use std::io;

const LINE: u64 = 7;

const NOT_READ: &[u8] = b"(s 0 50000 0 0 -0)";

const OUT_OF_RANGE: TermsInput = TermsInput {
    ticks: 20,
    needed: 5,
    a: 30_000,
    b: 70_000,
    low: Offer {
        quantity: 101,
        price: 1_701,
    },
    high: Offer {
        quantity: 0,
        price: 0,
    },
};

// The number and byte of the fault of a line that is turned down for this cause, and the line.
fn told(
    report: &mut Report<impl Print>,
    what: &str,
    cause: Option<Cause>,
    should_be: RefusedAt,
) -> io::Result<()> {
    let Some(cause) = cause else {
        return report.holds(what, false);
    };
    let fault = SheetFault::new(LINE, cause);
    report.compare(what, RefusedAt::from(fault), should_be)?;
    report.holds("  its line", fault.line == LINE)
}

// Why a curve of no points is turned down. (An `Option`: the refusal is what is looked for, and that there is none would be wrong.)
fn no_points() -> Option<Cause> {
    let line = CurveLine::new(5, 2, &[]).ok()?;
    curve_of(&line).err()
}

pub fn show(report: &mut Report<impl Print>) -> io::Result<()> {
    report.title("Faults of a sheet")?;
    let read = read_line(NOT_READ).err().map(Cause::from);
    told(report, "a line that is not read", read, RefusedAt(21, 16))?;
    let terms = terms_of(&OUT_OF_RANGE).err();
    told(report, "a quantity out of range", terms, RefusedAt(2, 0))?;
    told(report, "a curve of no points", no_points(), RefusedAt(8, 0))?;
    let flag = Some(Cause::from(SampleFault::Flag));
    told(report, "a flag out of range", flag, RefusedAt(16, 0))?;
    let place = Some(Cause::OutOfPlace);
    told(report, "a line out of place", place, RefusedAt(25, 0))
}
