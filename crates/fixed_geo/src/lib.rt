//! Points on the earth in fixed-point coordinates, lists of them, and lengths between them.
//! No float stands anywhere, and no call takes memory but those that let a list grow.
#![tactic(auto)]

mod lengths;
mod points;
mod roots;
mod shapes;

pub use lengths::{near, one_meridian, same_both_ways, segment_cm, worked_lengths};
pub use points::Point;
pub use roots::whole_root;
pub use shapes::Shape;
