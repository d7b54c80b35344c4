//! What the messages of a PrimitiveBlock mean: nodes, ways and relations with the tags that are kept, or the first fault.
//! A block comes as `osm_messages` reads it, and the objects are those of `osm_model`.
#![tactic(auto)]

mod dense;
mod entry;
mod fault;
mod fault_lines;
mod groups;
mod kept;
mod law;
mod nodes;
mod objects;
mod parts;
mod relations;
mod scale;
mod sums;
mod tags;
mod texts;
mod ways;

pub use fault::ObjectFault;
pub use fault_lines::object_fault_lines;
pub use law::object_law;
pub use objects::{ObjectLists, add_objects};
