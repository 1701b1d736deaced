// Runs the worked figures of the rules and many edge cases, and prints each figure with what it should be.
#![tactic(auto)]

mod asked;
mod asymmetric_curve;
mod cases;
mod flat_curve;
mod inputs;
mod own_curves;
mod pence;
mod refused_points;
mod refused_readings;
mod refused_terms;
mod rolling_errors;
mod runs;
mod shown;
mod single_values;
mod steps;
mod told;
mod whole_accounts;
mod worked_block;

use report::Report;
use std::io;

fn main(rt: HostRuntime) -> io::Result<()> {
    // One by one: a table of these functions would have a line for each too.
    let mut report = Report::new(rt);
    worked_block::show(&mut report)?;
    single_values::show(&mut report)?;
    runs::show(&mut report)?;
    own_curves::show(&mut report)?;
    refused_terms::show(&mut report)?;
    refused_points::show(&mut report)?;
    refused_readings::show(&mut report)?;
    rolling_errors::show(&mut report)?;
    pence::show(&mut report)?;
    whole_accounts::show(&mut report)?;
    report.total()
}
