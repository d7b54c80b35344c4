//! Tests of `road_pieces`: worked rows of pieces and junctions.
#![tactic(auto)]

#[cfg(test)]
mod pieces;
