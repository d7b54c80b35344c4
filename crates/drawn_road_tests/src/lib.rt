//! Tests of `road_pieces`: `cut` beside a plain slow program, on extracts that are drawn at random.
#![tactic(auto)]

#[cfg(test)]
mod comparison;
#[cfg(test)]
mod plain;
