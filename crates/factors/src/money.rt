// Money in pence, with halves rounded up.
ghost use Rattle.std.specs.Prelude.{◌≡◌, ◌≤◌, pos, ◌*ℤ◌, unsigned_abs};
ghost use Rattle.factors.specs.Factors.{lowest};
ghost use Rattle.factors.specs.Money.{nearest, earning, earns, earned, come_to, told};

use crate::factors::WHOLE;
use crate::settlement::{ByFactor, PeriodFigures, Settlement};
use rules::{Contract, PERIODS, Terms};

// The whole number nearest to n ÷ d, halves up.
fn nearest(n: i64, d: u64) -> i64
    requires small { unsigned_abs n ≤ 100000000000000 }
    requires divisor { (1 ≤ d) × (d ≤ 1000000) }
    ensures { result ≡ nearest n d }
{
    (n + n + d as i64).div_euclid(2 * d as i64)
}

// The whole number nearest to n × by ÷ d, halves up, of numbers small enough that their product fits.
#[tactic(auto, using(crate::proofs::MoneyFacts::product_small))]
fn scaled(n: i64, by: u64, d: u64) -> i64
    requires small { unsigned_abs n ≤ 100000000 }
    requires few { by ≤ 1000000 }
    requires divisor { (1 ≤ d) × (d ≤ 1000000) }
    ensures { result ≡ nearest (n *ℤ pos by) d }
{
    nearest(n * by as i64, d)
}

// What a payable period, of half an hour, earns: price × MW ÷ 2.
fn earning(terms: &Terms, contract: Contract) -> i64
    ensures value { result ≡ earning terms.now contract }
    ensures bound { unsigned_abs result ≤ 5000000 }
{
    let held = terms.of(contract);
    scaled(held.price, held.quantity, 2)
}

impl PeriodFigures {
    fn earns(&self, each: i64) -> i64
        ensures { result ≡ earns each self.now }
    {
        if self.payable { each } else { 0 }
    }
}

// The sum over the payable periods, where each earns the same.
fn earned(each: i64, periods: &[PeriodFigures; PERIODS]) -> i64
    requires { unsigned_abs each ≤ 5000000 }
    ensures value { result ≡ earned each periods.now }
    ensures bound { unsigned_abs result ≤ 100000000 }
{
    let mut sum = 0;
    for period in periods {
        sum += period.earns(each);
    }
    sum
}

// The lowest factor of the periods.
fn lowest(periods: &[PeriodFigures; PERIODS]) -> u64
    ensures { result ≡ lowest periods.now }
{
    rules::least::<PeriodFigures, ByFactor>(periods).map_or(WHOLE, |figures| figures.factor)
}

// What a contract comes to, from the figures of its periods.
pub(crate) fn come_to(
    terms: &Terms,
    contract: Contract,
    periods: [PeriodFigures; PERIODS],
) -> Settlement
    requires { lowest periods ≤ 1000000 }
    ensures { told result ≡ come_to (earning terms.now contract) periods }
{
    let sum = earned(earning(terms, contract), &periods);
    let factor = lowest(&periods);
    Settlement {
        periods,
        sum,
        factor,
        payment: scaled(sum, factor, WHOLE),
    }
}
