//! The tiles that lifted rows make are those of the folder: the law.
#![tactic(auto)]

mod laws;

pub use laws::lifted_make_tiles;
