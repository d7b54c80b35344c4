//! Tests of `osm_blocks`: whole files, their order, their limits and faults.
#![tactic(auto)]

#[cfg(test)]
mod files;
