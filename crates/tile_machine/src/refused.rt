//! Why a step isn't taken.

/// The first cause for which an event is refused.
#[derive(Clone, Copy, Debug, PartialEq, Eq)]
pub enum Refused {
    /// No live worker has this number.
    NoWorker,
    /// There is no such tile.
    NoTile,
    /// The tile is claimed already.
    Claimed { by: u64 },
    /// The worker holds a lock already.
    HandsFull { tile: u64 },
    /// The lock of the tile is held.
    Held { by: u64 },
    /// The worker doesn't hold the lock of the tile.
    NotHolder,
    /// The tile's value is out.
    IsOut,
    /// The tile's value is in its place.
    IsHome,
    /// The claim of the tile doesn't name the worker.
    NotClaimant,
    /// The tile is marked already.
    Marked,
    /// The place of the cut isn't strictly inside the worker's range, or the other's range isn't the next one.
    BadRange,
    /// The worker that is to end holds the lock of this tile.
    StillHolds { tile: u64 },
}
