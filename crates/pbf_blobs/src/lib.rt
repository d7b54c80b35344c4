//! The frames of a PBF file: a length, a BlobHeader, a Blob, and so on to the end (fileformat.proto).
//! Header and Blob are messages of the wire format, read whole: fields in any order, repeated and unknown ones.
#![tactic(auto)]

mod blob;
mod fault;
mod fault_lines;
mod input;
mod law;
mod limits;
mod next;
mod parts;
mod walk;
mod worked;

pub use blob::Blob;
pub use fault::PbfFault;
pub use fault_lines::pbf_fault_lines;
pub use law::framing_law;
pub use limits::{HEADER_LIMIT, MOST_BLOB, MOST_INPUT};
pub use next::next_blob;
pub use worked::worked_limits;
