//! The grid of tiles: the tile of a place on each hierarchy level, and the corner of a tile.
//! No call takes memory.
#![tactic(auto)]

mod grid;

pub use grid::{level_of_class, south_west, tile_holds_place, tile_of, worked_tiles};
