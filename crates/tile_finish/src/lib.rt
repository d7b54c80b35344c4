//! Work tiles as the bytes of tile files.
#![tactic(auto)]

mod assembly;
mod edge_offsets;
mod edge_places;
mod finish;
mod parts;
mod sections;

pub use finish::finish_tile;
