//! Workers in threads of their own rewrite the tiles of a stage. The answer is the list of the finished tiles, for every number
//! of workers and every schedule.
#![tactic(auto)]

mod rest;
mod run;
mod seat_parts;
mod tries;
mod worker;
mod workers;

pub use run::run_phase;
pub use seat_parts::SeatParts;
