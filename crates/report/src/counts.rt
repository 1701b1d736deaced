// How many figures are as they should be, and how many are not.
ghost use Rattle.std.specs.Prelude.{◌≡◌};
ghost use Rattle.report.specs.Counts.{counted};

#[derive(Clone, Copy, Default)]
pub struct Counts {
    pub right: u64,
    pub wrong: u64,
}

impl Counts {
    pub fn count(&mut self, same: bool)
        ensures { self.new ≡ counted same self.old }
    {
        if same {
            self.right = self.right.saturating_add(1);
        } else {
            self.wrong = self.wrong.saturating_add(1);
        }
    }
}
