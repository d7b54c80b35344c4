//! Tests of `road_pieces`: classes, access, barriers and names of pieces.
#![tactic(auto)]

#[cfg(test)]
mod tagged;
