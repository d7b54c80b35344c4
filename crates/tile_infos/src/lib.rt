//! The infos of a tile, made from the pieces of the roads.
#![tactic(auto)]

mod laws;
mod names;
mod tile;

pub use laws::{pieces_at_places, starts_are_sums, tile_infos_pass};
pub use tile::{Offsets, TileInfos, tile_infos};
