//! Tiles as files, both ways: each tile has one spelling, and the reader answers the tile that bytes spell, or the
//! first check that fails and its place.
#![tactic(auto)]

mod chain_section;
mod chains;
mod header;
mod ids;
mod items;
mod laws;
mod read;
mod record_sections;
mod sequence_section;
mod sequences;
mod spans;
mod tail_sizes;
mod tile;
mod write;
mod write_whole;

pub use chains::Chains;
pub use header::{Header, MOST_RECORDS, SIGNATURE};
pub use ids::{Ids, LevelRule};
pub use items::{EdgeRecs, NodeRecs};
pub use laws::{chains_law, edges_law, ids_law, nodes_law, sequences_law, tile_law};
pub use read::{TileFault, read_tile};
pub use sequences::{FEWEST_EDGES, MOST_EDGES, Sequence, Sequences};
pub use tile::Tile;
pub use write::WriteFault;
pub use write_whole::write_tile;
