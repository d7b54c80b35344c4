//! Tests of whole tile files: files that are read and written as these very bytes, and broken ones, with the check and
//! the place counted by hand.
#![tactic(auto)]

#[cfg(test)]
mod counts;
#[cfg(test)]
mod tiles;
