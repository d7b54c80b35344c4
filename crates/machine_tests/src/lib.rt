//! Tests of the tile machine, its sample phases and the shared table: `tile_machine`, `phase_samples`, `tile_table`.
#![tactic(auto)]

#[cfg(test)]
mod machine;
#[cfg(test)]
mod samples;
#[cfg(test)]
mod table;
