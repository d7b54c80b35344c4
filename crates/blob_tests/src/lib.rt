//! Tests of `pbf_blobs`: blobs of files, and each fault of a frame.
#![tactic(auto)]

#[cfg(test)]
mod frames;
