//! An extract of a grid of roads that is made without a file, as the bytes of a PBF file.
#![tactic(auto)]

mod blocks;
mod grid_file;
mod objects;
mod spelling;
mod tables;
mod worked;

pub use grid_file::{can_be_made, make_extract};
pub use worked::worked_draws;
