//! The whole build: from an extract to the files of its folder.
#![tactic(auto)]

mod fault_lines;
mod faults;
mod files;
mod flow;
mod laws;
mod unbuilt;

pub use fault_lines::limit_lines;
pub use faults::{FlowFault, LimitFault};
pub use flow::folder_of;
pub use laws::{builds_by_objects, built_walks};
pub use unbuilt::first_unbuilt;
