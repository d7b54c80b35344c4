//! The restrictions of turns among the relations of an extract: each is one row of turns, or it is skipped for
//! a reason.
#![tactic(auto)]

mod exceptions;
mod keys;
mod kinds;
mod listing;
mod members;
mod rows;
mod turn;

pub use listing::turn_rows;
pub use rows::{SkipReason, Skipped, SkippedRows, TurnRow, TurnRows, Turns, Via};
