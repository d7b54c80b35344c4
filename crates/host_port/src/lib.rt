//! The outside, as the program sees it: an input to read, files to put, a text to say.
#![tactic(auto)]

mod bytes;
mod counts;
mod gate;
mod host;
mod lists;
mod mem_host;
mod real_host;
mod seq;
mod text;

pub use bytes::Bytes;
pub use gate::{Gate, Moment, NoGate};
pub use host::{Host, HostFault};
pub use lists::{HostFiles, Numbers, Paths};
pub use mem_host::MemHost;
pub use real_host::RealHost;
pub use seq::Seq;
pub use text::Text;
