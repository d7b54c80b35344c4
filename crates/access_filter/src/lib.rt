//! Tiles without what no asked mode may use.
#![tactic(auto)]

mod keeping;
mod node_edges;

pub use keeping::keep;
