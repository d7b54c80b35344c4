//! Tests of the tables of tags and of turn restrictions: `way_tags` and `osm_restrictions`.
#![tactic(auto)]

#[cfg(test)]
mod turns;
#[cfg(test)]
mod ways;
