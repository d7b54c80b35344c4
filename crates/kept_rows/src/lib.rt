//! The tiles of all levels that are made of an extract are the rows of its folder: the law.
#![tactic(auto)]

mod laws;

pub use laws::{kept_own_nodes, lifted_are_table, open_table_is_plain};
