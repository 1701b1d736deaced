// A curve line: ramp, lag and points.
use basics::Few;
use curve::Point;

pub mod points;

// A line of 200 bytes holds no more. (That points are so few is asked where it is needed: a type for a count alone is no plainer.)
pub const MOST_POINTS: usize = 23;

#[derive(Clone, Copy)]
pub struct CurveLine {
    pub ramp: i64,
    pub lag: i64,
    points: Few<Point, MOST_POINTS>,
}
