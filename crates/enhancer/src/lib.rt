//! Phase Enhance: density, name consistency and not-thru.
#![tactic(auto)]

mod alike;
mod cells;
mod density;
mod floods;
mod held;
mod laws;
mod looks;
mod names;
mod phase;
mod readable;
mod spots;

pub use laws::not_thru_law;
pub use phase::Enhance;
pub use readable::ReadableTile;
