//! Small phases, for tests and to read: one whose tiles need all others, and one whose tiles need their two neighbours.
#![tactic(auto)]

mod fence;
mod sums;

pub use fence::{Fence, Post};
pub use sums::{Summand, Sums, summands};
