//! Reading an extract of OpenStreetMap: the blobs of a PBF file one after the other, and what holds of all their
//! objects together.
#![tactic(auto)]

mod counts;
mod draft;
mod fault;
mod fault_lines;
mod features;
mod law;
mod lists;
mod order;
mod read;
mod worked;

pub use fault::{Counted, ExtractFault, kind_name};
pub use fault_lines::{extract_fault_lines, fault_lines_kept};
pub use law::{content_law, reading_law, refusal_law};
pub use read::read_extract;
pub use worked::{worked_counts, worked_limits};
