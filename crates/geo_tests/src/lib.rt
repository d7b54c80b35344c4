//! Tests of places, tiles on the earth and their numbers: worked rows of `fixed_geo`, `graph_id` and `tile_geometry`.
#![tactic(auto)]

#[cfg(test)]
mod distances;
#[cfg(test)]
mod grids;
#[cfg(test)]
mod ids;
