//! Tests of the whole program over a host in memory: what each command puts and says, the words, each status with its
//! cause. They stand apart from the top call, so that a change of it proves them again only where it is used.
#![tactic(auto)]

#[cfg(test)]
mod blobs;
#[cfg(test)]
mod builds;
#[cfg(test)]
mod limits;
#[cfg(test)]
mod words;
