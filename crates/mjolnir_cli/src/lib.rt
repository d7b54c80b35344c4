//! The command line: what the words ask for, what is put and said, and the status at the end.
#![tactic(auto)]

mod answer;
mod blobs;
mod build;
mod deliver;
mod failure;
mod law;
mod put;
mod say;
mod top;
mod words;
mod worked;

pub use answer::Answer;
pub use failure::{Failure, failure_lines};
pub use law::{one_end, refusals_name_the_input, some_end};
pub use top::{mjolnir, wordless};
pub use words::{Command, asked};
pub use worked::{worked_failures, worked_lines};
