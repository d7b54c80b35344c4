//! Tests of `osm_model`: texts, tags, and the lists of objects.
#![tactic(auto)]

#[cfg(test)]
mod lists;
