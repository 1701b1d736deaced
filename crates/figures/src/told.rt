// What a curve tells, beside what it should.
use curve::Curve;
use report::Report;
use std::io;

// A frequency in mHz, and the parts that it calls for.
#[derive(Clone, Copy)]
pub struct Told(pub i64, pub i64);

pub fn tells<C: Curve>(
    report: &mut Report<impl Print>,
    curve: &C,
    table: &[Told],
) -> io::Result<()> {
    for Told(frequency, parts) in table {
        report.compare(
            format_args!("parts at {frequency} mHz"),
            curve.parts(*frequency),
            *parts,
        )?;
    }
    Ok(())
}
