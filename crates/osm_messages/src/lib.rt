//! What the payload of a blob spells, as messages inside messages, before anything is known of what they mean: the
//! required features of a header block, and the string table, the objects and the scalars of a PrimitiveBlock, each
//! with its offset. The objects' numbers are read in a second step, object by object, as unsigned numbers of 64 bits.
//! Everything borrows from the bytes of the payload.
#![tactic(auto)]

mod block;
mod fault;
mod fault_lines;
pub mod fields;
mod group;
mod header;
mod kind;
mod law;
mod lists;
mod numbers;
mod object;
mod packed;
mod raw;
mod texts;
mod worked;

pub use block::{RawPrimitiveBlock, read_primitive_block};
pub use fault::MessageFault;
pub use fault_lines::message_fault_lines;
pub use header::read_features;
pub use kind::ObjectKind;
pub use law::block_law;
pub use lists::NumberLists;
pub use numbers::read_numbers;
pub use object::RawObject;
pub use raw::{RawDenseNodes, RawNode, RawRelation, RawWay};
pub use worked::{worked_block_fields, worked_list_fields, worked_node_fields};
