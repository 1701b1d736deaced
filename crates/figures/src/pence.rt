// Earnings, sums and payments in whole pence, halves rounded up.
use crate::asked::{high, low};
use crate::inputs::{Contracted, NOT_HELD, Row, Stretch, hand_in, usual};
use crate::shown::Money;
use account::{Account, ClosedBlock};
use curve::Containment;
use report::Report;
use rules::Reading;
use std::io;

// What is contracted low, a power in kW, and what one period comes to in which four readings, all in grace, have that power.
#[derive(Clone, Copy)]
struct Case(Contracted, i64, Money);

const CASES: [Case; 8] = [
    Case((51, 1_701), 0, Money(43_376, 1_000_000, 43_376)),
    Case((50, 1_701), 52_500, Money(42_525, 500_000, 21_263)),
    Case((1, 0), 0, Money(0, 1_000_000, 0)),
    Case((1, 1), 0, Money(1, 1_000_000, 1)),
    Case((1, 1), 1_050, Money(1, 500_000, 1)),
    Case((1, 1), 1_051, Money(1, 475_000, 0)),
    Case((1, 99_999), 0, Money(50_000, 1_000_000, 50_000)),
    Case((100, 99_999), 0, Money(4_999_950, 1_000_000, 4_999_950)),
];

fn one_period(contracted: Contracted, power: i64) -> io::Result<Money> {
    let mut account = Account::open(usual(20, 1, contracted, NOT_HELD)?, Containment);
    hand_in(&mut account, &[Stretch((0, 3), 50_000, power, 0, 1)]);
    Ok(low(&account.close()).money())
}

fn table(report: &mut Report<impl Print>) -> io::Result<()> {
    for Case(contracted, power, should_be) in CASES {
        let money = one_period(contracted, power)?;
        let (quantity, price) = contracted;
        report.compare(
            format_args!("{quantity} MW at {price} pence, {power} kW"),
            money,
            should_be,
        )?;
    }
    Ok(())
}

// One reading in each of eight periods of 16 ticks.
fn eight_periods() -> io::Result<ClosedBlock<Containment>> {
    let mut account = Account::open(usual(16, 1, (100, 99_999), (100, 99_999))?, Containment);
    for period in 0_u8..8 {
        let _ = account.sample(&Reading::from(Row(16 * i64::from(period), 50_000, 0, 0, 3)));
    }
    Ok(account.close())
}

pub fn show(report: &mut Report<impl Print>) -> io::Result<()> {
    report.title("Halves of a penny, and the greatest sum")?;
    table(report)?;
    let block = eight_periods()?;
    report.compare(
        "eight periods, low",
        low(&block).money(),
        Money(39_999_600, 1_000_000, 39_999_600),
    )?;
    report.compare(
        "eight periods, high",
        high(&block).money(),
        Money(39_999_600, 1_000_000, 39_999_600),
    )
}
