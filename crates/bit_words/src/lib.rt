//! Numbers in fields of bits of 64-bit words. No call takes memory.
#![tactic(auto)]

mod fields;
mod laws;

pub use fields::{get, set};
pub use laws::{set_and_get, word_and_fields};
