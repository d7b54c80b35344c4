//! Why base tiles can't be made.

use std::alloc::AllocError;

/// Why base tiles can't be made.
#[derive(Clone, Copy, Debug, PartialEq, Eq)]
pub enum BaseFault {
    /// More than 127 base edges start at a junction, the first one in order of OSM id.
    TooManyEdges { node: i64, count: u64 },
    /// There was no memory. It may be answered in place of the other.
    OutOfMemory,
}

impl From<AllocError> for BaseFault {
    ghost use Rattle.std.specs.Prelude.{◌≡◌};
    ghost use Rattle.edge_builder.specs.declared.faults.BaseFault.{BaseFault};

    ghost from_gives = { λ error fault. fault ≡ BaseFault.OutOfMemory };

    fn from(_error: AllocError) -> BaseFault {
        BaseFault::OutOfMemory
    }
}
