//! The graph of a folder's tiles: what a walk over its records is. There are no calls on tiles yet; the definitions
//! stand in `specs/`.
#![tactic(auto)]

mod laws;

pub use laws::alike_graphs_agree;
