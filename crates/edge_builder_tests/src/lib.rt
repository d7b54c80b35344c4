//! Tests of `edge_builder`: worked rows of base tiles.
#![tactic(auto)]

#[cfg(test)]
mod worked;
