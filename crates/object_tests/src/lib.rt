//! Tests of the messages of a block and of the objects that they mean: `osm_messages` and `osm_objects`.
#![tactic(auto)]

#[cfg(test)]
mod messages;
#[cfg(test)]
mod objects;
