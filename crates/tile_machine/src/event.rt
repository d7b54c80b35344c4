//! What workers do to the tiles of a stage, as single steps.

/// One step of a worker.
#[derive(Clone, Copy, Debug, PartialEq, Eq)]
pub enum Event {
    /// The worker claims the tile: it alone is to finish it.
    Claim { worker: u64, tile: u64 },
    /// The worker takes the lock of the tile: it alone may reach the tile's value.
    Take { worker: u64, tile: u64 },
    /// The worker takes the tile's value out of its place.
    BringOut { worker: u64, tile: u64 },
    /// The worker marks the tile as finished.
    Mark { worker: u64, tile: u64 },
    /// The worker puts a value back: the one it brought out, or the finished one where the tile is marked.
    PutBack { worker: u64, tile: u64 },
    /// The worker gives the lock up.
    Free { worker: u64, tile: u64 },
    /// The worker's range is cut at `at`. The upper part is a new worker, whose number is `at`.
    Split { worker: u64, at: u64 },
    /// The range of `other` is added to the worker's, and `other` ends.
    Join { worker: u64, other: u64 },
}
