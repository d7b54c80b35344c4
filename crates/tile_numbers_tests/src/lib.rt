//! Tests of `tile_numbers`: records of tiles that were laid out and numbered by hand.
#![tactic(auto)]

mod worked;

pub use worked::numbered_worked;

#[cfg(test)]
mod records;
#[cfg(test)]
mod room;
