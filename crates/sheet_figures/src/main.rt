// Reads and writes lines of a sheet on both sides of every limit, and prints each answer with what it should be.
#![tactic(auto)]

mod answer;
mod forms;
mod lines;
mod long_lines;
mod sheet_faults;
mod visible;
mod written;

use answer::read_each;
use report::Report;
use std::io;

fn main(rt: HostRuntime) -> io::Result<()> {
    // One by one: a table of these titles and cases would have a line for each too.
    let mut report = Report::new(rt);
    read_each(&mut report, "Bytes that no form has", &forms::ALIEN)?;
    read_each(&mut report, "Where a form begins and ends", &forms::ENDS)?;
    read_each(&mut report, "Words", &forms::WORDS)?;
    read_each(&mut report, "Spaces", &forms::SPACES)?;
    read_each(&mut report, "Numbers", &forms::NUMBERS)?;
    read_each(&mut report, "Depths", &forms::DEPTHS)?;
    read_each(&mut report, "200 bytes and more", &long_lines::CASES)?;
    read_each(&mut report, "Readings", &lines::READINGS)?;
    read_each(&mut report, "Blocks", &lines::BLOCKS)?;
    read_each(&mut report, "Curves", &lines::CURVES)?;
    written::show(&mut report)?;
    sheet_faults::show(&mut report)?;
    report.total()
}
