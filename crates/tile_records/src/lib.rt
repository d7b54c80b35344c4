//! The records of nodes and directed edges in a tile, each of four words. No call takes memory.
#![tactic(auto)]

mod edges;
mod laws;
mod nodes;

pub use edges::EdgeRec;
pub use laws::{edge_law, node_law};
pub use nodes::NodeRec;
