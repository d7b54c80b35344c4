//! Tests of walks over tiles that were read from files.
#![tactic(auto)]

#[cfg(test)]
mod files;
#[cfg(test)]
mod graphs;
#[cfg(test)]
mod walks;
