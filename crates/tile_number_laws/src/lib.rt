//! Laws: the records of work tiles pass the checks of a tile file on nodes, edges and transitions.
#![tactic(auto)]

mod laws;

pub use laws::{numbered_counts_agree, numbered_edges_pass, numbered_nodes_pass, transitions_pass};
