//! Tests of `tile_infos`: worked rows of entries, texts and offsets.
#![tactic(auto)]

#[cfg(test)]
mod roads;
