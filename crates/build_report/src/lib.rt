//! The report of a build and the list of its tile files, as bytes.
#![tactic(auto)]

mod law;
mod listing;
mod summary;
mod text;

pub use law::{lists_written_out, reports_written_out};
pub use listing::list_text;
pub use summary::BuildReport;
pub use text::report_text;
