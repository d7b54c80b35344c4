//! The rows of one tile of the road graph while it is built.
#![tactic(auto)]

mod edge_rows;
mod node_rows;
mod places;
mod tile_rows;
mod tiles;

pub use edge_rows::WorkEdge;
pub use places::Places;
pub use tile_rows::{NodeView, TileRows};
pub use tiles::{WorkTile, copy_tile};
