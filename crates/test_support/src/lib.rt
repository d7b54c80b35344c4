//! What the tests of several crates stand on: small extracts, hosts in memory that have one, and files of tiles.
#![tactic(auto)]

mod extracts;
mod hosts;
mod objects;
mod tiles;

pub use extracts::{
    COMPRESSED, HEADER, LONG, NODES_AND_WAY, UNKNOWN, data_triple, extract_of, extract_with_way,
    front, put_field, put_varint,
};
pub use hosts::{TILE_PATH, file_is, file_of, holds, host_of, host_with, puts_are};
pub use objects::BlockWriter;
pub use tiles::{ROAD, road_tile, word_bytes};
