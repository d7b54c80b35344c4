//! Where each number of a list stands in it, found without a search.
#![tactic(auto)]

mod index;
mod links;

pub use index::NumberIndex;
