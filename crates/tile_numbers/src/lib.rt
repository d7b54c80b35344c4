//! Work tiles as records of tile files: the numbers of nodes, of the ends of edges and of opposing edges.
#![tactic(auto)]

mod ends;
mod numbering;
mod room;
mod transitions;

pub use numbering::{NumberedTile, number_tile};
pub use room::{MOST_RECORDS, TileFull, What, first_full};
