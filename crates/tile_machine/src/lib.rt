//! The pure core of rewriting the tiles of a stage by several workers: what a phase promises, and the states and steps
//! of the workers, right for every list of events. There are no threads here.
#![tactic(auto)]

mod event;
mod machine;
mod parts;
mod phase;
mod plain;
mod refused;
mod state;
mod table;
mod values;

pub use event::Event;
pub use machine::Machine;
pub use parts::{PartFault, Parts};
pub use phase::Phase;
pub use plain::PlainParts;
pub use refused::Refused;
pub use state::{Cell, Worker};
pub use values::{claims_stay, values_follow_marks};
