//! Tests of `complex_restr`: patterns at a junction with ten streets, and the kept pieces of a small extract.
#![tactic(auto)]

#[cfg(test)]
mod kept;
#[cfg(test)]
mod star;
