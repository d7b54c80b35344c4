//! Tests of `bounded_flood`: small graphs whose sides were counted by hand.
#![tactic(auto)]

mod drawn;

pub use drawn::answers;

#[cfg(test)]
mod shapes;
