//! Tests of the whole program over a host in memory: what ends a build where no blob had a fault, an id that comes twice and
//! an object that isn't built yet; which tags and places are read.
#![tactic(auto)]

#[cfg(test)]
mod extract_ends;
#[cfg(test)]
mod unbuilt;
