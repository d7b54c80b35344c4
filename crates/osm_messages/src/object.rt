//! The objects of a block, as bytes.
ghost use Rattle.std.specs.Prelude.{◌+◌, ◌<◌, ◌^◌, length};

use crate::kind::ObjectKind;

/// A Node, a DenseNodes, a Way or a Relation, as bytes of its block. `at` is the offset of its first byte, and the
/// offsets of all its bytes are numbers of 64 bits.
#[derive(Clone, Copy, Debug)]
pub struct RawObject<'a> {
    pub kind: ObjectKind,
    pub at: u64,
    pub bytes: &'a [u8],
    ghost inside: { at + length bytes.now < 2 ^ 64 },
}
