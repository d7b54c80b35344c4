//! Tests of tiles while they are built.
#![tactic(auto)]

#[cfg(test)]
mod kept;
#[cfg(test)]
mod rows;
