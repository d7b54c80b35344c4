//! Tests of tiles on their levels.
#![tactic(auto)]

#[cfg(test)]
mod lifted;
