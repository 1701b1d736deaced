// The factor that a period's largest rolling error leaves.
ghost use Rattle.std.specs.Prelude.{◌≡◌};
ghost use Rattle.factors.specs.Factors.{factor as factor_at};
ghost use Rattle.factors.specs.Figures.{WorkedFigures};

use rules::Terms;

// A factor is in millionths.
pub const WHOLE: u64 = 1_000_000;

// Whole for an error up to A, 0 for one of B or more, and between them 1,000,000 × (B − E) ÷ (B − A), fraction dropped.
pub fn factor(terms: &Terms, error: u64) -> u64
    ensures { result ≡ factor_at terms.now error }
{
    let (a, b) = terms.band();
    if error <= a {
        return WHOLE;
    }
    if b <= error {
        return 0;
    }
    WHOLE * (b - error) / (b - a)
}

// The worked figures of the rules, as a theorem.
pub fn factor_figures()
    ensures { WorkedFigures }
{}
