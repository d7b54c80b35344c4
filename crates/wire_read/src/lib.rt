//! Reading the Protocol Buffers wire format from a slice. Nothing is copied, and no call takes memory.
//!
//! Where a rule comes from is said by the section of the format's guide, "Encoding", at protobuf.dev.
#![tactic(auto)]

mod fault;
mod fault_lines;
mod fields;
mod numbers;
mod varint;
mod zigzag;

pub use fault::WireFault;
pub use fault_lines::wire_fault_lines;
pub use fields::{Body, Field, Fields, message_law, read_field};
pub use numbers::{Varints, packed_numbers_law};
pub use varint::{read_varint, varint_law};
pub use zigzag::unzigzag;
