// The largest rolling error of a period.
ghost use Rattle.std.specs.Prelude.{◌≡◌};
ghost use Rattle.factors.specs.Worst.{worse, unerring};

// The largest rolling error, in millionths of the contracted quantity, and the first tick that reached it; 0 and no tick
// where there is none above 0. An Option of both would be no plainer: E is a number in the rules, 0 too, and the factor and who
// prints it would each turn None back to 0.
#[derive(Clone, Copy)]
pub struct Worst {
    pub error: u64,
    pub tick: Option<u64>,
}

impl Worst {
    pub fn new() -> Worst
        ensures { result ≡ unerring }
    {
        Worst {
            error: 0,
            tick: None,
        }
    }

    // Takes in the rolling error at a tick, if there is one.
    pub fn take_in(&mut self, rolling: Option<u64>, tick: u64)
        ensures { self.new ≡ worse self.old rolling tick }
    {
        let Some(error) = rolling else {
            return;
        };
        if self.error < error {
            *self = Worst {
                error,
                tick: Some(tick),
            };
        }
    }
}
