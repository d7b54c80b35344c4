//! From roads to the base tiles of level 2: all junctions, and both directed edges of every piece, in order.
#![tactic(auto)]

mod base;
mod crowds;
mod edges;
mod faults;
mod groups;
mod laws;
mod starts;
mod tiles;

pub use base::base_tiles;
pub use faults::BaseFault;
pub use laws::{base_stage, extract_roads, pieces_told_forward};
