// The curve that is given by points of deviation and parts.
ghost use Rattle.std.specs.Prelude.{◌≡◌, true};
ghost use Rattle.basics.specs.Few.{items};
ghost use Rattle.curve.specs.Loading.{accepted};

use crate::loading::Point;
use basics::Few;

pub mod making;
pub mod telling;

// The points that are held; they, the ramp in parts and the lag in ticks are such as loading accepts.
#[derive(Clone, Copy)]
pub struct Points {
    points: Few<Point, 8>,
    ramp: i64,
    lag: i64,
    ghost sound: { accepted (items points) ramp lag ≡ true },
}
