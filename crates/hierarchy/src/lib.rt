//! Tiles on their levels.
#![tactic(auto)]

mod lifting;
mod node_edges;
mod over;
mod spots;
mod tiles;

pub use lifting::lift;
