//! Roads as runs of segments, and as pieces between junctions.
#![tactic(auto)]

mod counts;
mod courses;
mod crossings;
mod cutting;
mod dir_key;
mod fault_lines;
mod faults;
mod laws;
mod limits;
mod lines;
mod name_rows;
mod node_index;
mod parts;
mod pieces;
mod places;
mod rows;
mod rules;
mod steps;
mod survey;

pub use cutting::cut;
pub use dir_key::DirKey;
pub use fault_lines::cut_fault_lines;
pub use faults::CutFault;
pub use fixed_geo::Shape;
pub use laws::{list_agrees, turns_agree, walks_agree};
pub use limits::{LONGEST_PIECE_CM, MOST_PIECES};
pub use name_rows::NamesView;
pub use osm_model::PieceKey;
pub use pieces::{PieceView, Pieces};
pub use rows::{Junction, Junctions, Piece, Roads};
pub use steps::Step;
