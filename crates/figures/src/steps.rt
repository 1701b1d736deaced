// Readings that are handed in one after the other, with what they should be answered.
use crate::inputs::Stretch;
use crate::shown::{Accepted, Refused};
use account::Account;
use curve::Curve;
use report::Report;
use std::io;

// A stretch of readings, and what the last of them should be answered.
#[derive(Clone, Copy)]
pub struct Step(pub Stretch, pub Result<Accepted, Refused>);

fn answered<C: Curve>(account: &mut Account<C>, stretch: &Stretch) -> Result<Accepted, Refused> {
    Ok(Accepted::from(stretch.hand_in(account)?))
}

pub fn walk<C: Curve>(
    report: &mut Report<impl Print>,
    account: &mut Account<C>,
    steps: &[Step],
) -> io::Result<()> {
    for Step(stretch, should_be) in steps {
        report.outcome(*stretch, answered(account, stretch), *should_be)?;
    }
    Ok(())
}
