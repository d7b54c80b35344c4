//! Records of tiles by their GraphIds, and walks over tiles.
#![tactic(auto)]

mod forbidden;
mod graph;
mod items;
mod keys;
mod laws;
mod order;
mod steps;

pub use graph::{GraphFault, TileGraph};
pub use items::WalkItem;
pub use laws::records_are_of_graph;
