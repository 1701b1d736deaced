// Cases on both sides of each limit.
use crate::shown::or;
use report::Report;
use std::fmt::Display;
use std::io;

// What is handed in, and the number of the refusal that should come of it, if one should. (A number, since the numbers that
// docs/RULES.md gives are checked, which a fault's name would not show.)
#[derive(Clone, Copy)]
pub struct Case<T>(pub T, pub Option<u32>);

// Compares the number of a refusal, 0 for none.
pub fn refusal<N: Display + Drop>(
    report: &mut Report<impl Print>,
    name: N,
    number: Option<u32>,
    should_be: Option<u32>,
) -> io::Result<()> {
    report.compare(name, or(number, 0), or(should_be, 0))
}

// Compares the number of the refusal that comes of each case.
pub fn refusals<T: Display + Copy, F: Fn(T) -> io::Result<Option<u32>>>(
    report: &mut Report<impl Print>,
    cases: &[Case<T>],
    number: F,
) -> io::Result<()>
    requires { F.IsAlwaysCallable number }
{
    for Case(given, should_be) in cases {
        refusal(report, *given, number(*given)?, *should_be)?;
    }
    Ok(())
}
