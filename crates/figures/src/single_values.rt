// Single values of the rules: curves, period factors and an earning.
use crate::asked::{Asked, low};
use crate::inputs::{Contracted, FIFTY, NOT_HELD, Stretch, hand_in, usual};
use crate::shown::Record;
use crate::told::{Told, tells};
use account::Account;
use curve::{AnyCurve, Containment, Points, Sided, Sides};
use factors::factor;
use report::Report;
use rules::{Contract, Terms};
use std::io;

const CONTAINMENT: [Told; 7] = [
    Told(49_985, 0),
    Told(49_984, 60),
    Told(49_800, 11_100),
    Told(49_799, 11_803),
    Told(49_650, 116_550),
    Told(49_499, 222_000),
    Told(50_200, -11_100),
];

const LOW_SIDE: [Told; 3] = [Told(49_800, 11_100), Told(50_000, 0), Told(50_200, 0)];

const HIGH_SIDE: [Told; 3] = [Told(49_800, 0), Told(50_000, 0), Told(50_200, -11_100)];

fn curves(report: &mut Report<impl Print>) -> io::Result<()> {
    report.title("Containment")?;
    tells(report, &Containment, &CONTAINMENT)?;
    report.title("Containment for those who hold low only")?;
    tells(
        report,
        &Sided {
            curve: Containment,
            held: Sides::Low,
        },
        &LOW_SIDE,
    )?;
    report.title("Containment for those who hold high only")?;
    tells(
        report,
        &Sided {
            curve: Containment,
            held: Sides::High,
        },
        &HIGH_SIDE,
    )?;
    report.title("A points curve before any loading")?;
    tells(report, &AnyCurve::Points(Points::new()), &CONTAINMENT)
}

// A row, whose columns have no names so that it stays on a line: an error E and its factor; and a frequency in mHz and a power
// in kW that, held, make E for a low contract of 50 MW.
#[derive(Clone, Copy)]
struct Factored(u64, u64, i64, i64);

const FACTORS: [Factored; 4] = [
    Factored(30_000, 1_000_000, 49_800, 4_000),
    Factored(30_001, 999_975, 49_804, 3_946),
    Factored(69_999, 25, 49_835, 5_527),
    Factored(70_000, 0, 49_800, 6_000),
];

// In period 1, from tick 20 on, both bounds are those of the curve.
fn period_factor(report: &mut Report<impl Print>, terms: Terms, row: Factored) -> io::Result<()> {
    let Factored(error, should_be, frequency, power) = row;
    report.compare(
        format_args!("factor at E {error}"),
        factor(&terms, error),
        should_be,
    )?;
    let mut account = Account::open(terms, Containment);
    hand_in(&mut account, &[Stretch((0, 23), frequency, power, 0, 1)]);
    let record = Asked(1, Ok(Record(1, 4, false, error, Some(23), should_be)));
    low(&account.close()).show_records(report, &[record])
}

fn period_factors(report: &mut Report<impl Print>) -> io::Result<()> {
    report.title("Period factors with A = 30000 and B = 70000")?;
    let terms = usual(20, 5, FIFTY, NOT_HELD)?;
    for row in FACTORS {
        period_factor(report, terms, row)?;
    }
    Ok(())
}

fn earning(contracted: Contracted) -> io::Result<i64> {
    let mut account = Account::open(usual(20, 1, contracted, NOT_HELD)?, Containment);
    hand_in(&mut account, &[Stretch((0, 0), 50_000, 0, 0, 1)]);
    Ok(account.close().sum(Contract::Low))
}

pub fn show(report: &mut Report<impl Print>) -> io::Result<()> {
    curves(report)?;
    period_factors(report)?;
    report.title("An earning")?;
    report.compare("51 MW at 1701 pence", earning((51, 1_701))?, 43_376)
}
