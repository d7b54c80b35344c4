//! Tests of `osm_blocks`: one extract in many spellings.
#![tactic(auto)]

#[cfg(test)]
mod spellings;
