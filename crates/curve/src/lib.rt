// Response curves: how much of the contracted quantity a battery owes at a frequency.
//
// A curve is known by its meaning alone, the ghost member `shape` of the trait `Curve`; the facts that every
// implementation shows of it are the trait's law.
#![tactic(auto)]

mod by_pieces;
mod by_points;
mod choice;
mod deviations;
mod laws;
mod lines;
mod loading;
mod one_sided;
mod response;

pub use by_pieces::Containment;
pub use by_points::Points;
pub use choice::AnyCurve;
pub use laws::{
    containment_figures, each_kind_is_a_curve, facts_of_a_curve, points_are_joined_by_lines,
};
pub use loading::{Point, PointsFault};
pub use one_sided::{Sided, Sides};
pub use response::Curve;
