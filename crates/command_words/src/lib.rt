//! What the words of a command line ask for.
#![tactic(auto)]

mod ask;
mod command;
mod law;
mod rows;
mod usages;
mod values;

pub use ask::asked;
pub use command::{BuildOptions, Request};
pub use law::{
    blobs_rows, demo_rows, modes_are_known, modes_asked, nothing_asked, options_asked,
    workers_asked,
};
pub use usages::{BLOBS_USAGE, BUILD_USAGE, COMMANDS_USAGE, DEMO_USAGE, complaint, usage};
