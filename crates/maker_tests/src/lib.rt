//! Tests of `extract_maker`: made extracts read again.
#![tactic(auto)]

#[cfg(test)]
mod grids;
