//! The tiles that are kept of an extract can be finished: the law, and what it asks of pieces.
#![tactic(auto)]

mod laws;
mod spelled;

pub use laws::lifted_are_finishable;
pub use spelled::pieces_spell;
