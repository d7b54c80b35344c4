//! GraphIds, the numbers of nodes and edges in a tiled road graph, and the paths of tile files.
//! No call takes memory but `tile_path`.
#![tactic(auto)]

mod ids;
mod paths;

pub use ids::{BadId, GraphId, parts_and_value};
pub use paths::tile_path;
