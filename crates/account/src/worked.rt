// The worked figures, as one theorem.
ghost use Rattle.std.specs.Prelude.{◌≡◌};
ghost use Rattle.account.specs.Figures.{TheTwelveFigures};

// Shows of the definitions the twelve figures that are worked by hand, and answers how many they are.
pub fn twelve_figures_stand() -> usize
    ensures figures { TheTwelveFigures }
    ensures count { result ≡ 12 }
{
    12
}
