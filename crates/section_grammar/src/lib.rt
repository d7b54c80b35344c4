//! Sections of a file: items one after the other, each of which is read from the front of what is left, up to the
//! first that fails. Words and halves are little-endian.
#![tactic(auto)]

mod fault;
mod parts;
mod writes;

pub use fault::SectionFault;
pub use parts::{cut, four_words, half, place, word};
pub use writes::{push_count, push_half, push_record, push_word, push_zeros};
