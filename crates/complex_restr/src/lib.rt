//! Patterns of turn restrictions by the codes of directed pieces: the masks of edges, the flags of pieces, and the
//! patterns that are stored as sequences.
#![tactic(auto)]

mod edge_masks;
mod kept_codes;
mod local_codes;
mod patterns;
mod sequences;

pub use edge_masks::masks;
pub use kept_codes::kept_pieces;
pub use local_codes::local_indexes;
pub use patterns::{PatternView, TurnPatterns};
pub use sequences::{flags, stored};
