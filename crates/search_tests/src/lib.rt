//! Tests of `pattern_search`, whose values were worked out by hand.
#![tactic(auto)]

#[cfg(test)]
mod members;
#[cfg(test)]
mod tables;
