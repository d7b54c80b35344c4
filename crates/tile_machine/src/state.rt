//! The data that the machine keeps of each tile and of each worker.

/// What the machine knows of one tile.
#[derive(Clone, Copy, Debug, PartialEq, Eq)]
pub struct Cell {
    /// The worker that has claimed the tile.
    pub claim: Option<u64>,
    /// The worker that holds the tile's lock.
    pub lock: Option<u64>,
    /// Whether the tile is marked as finished.
    pub marked: bool,
    /// Whether the tile's value is in its place.
    pub home: bool,
}

/// What the machine knows of the worker of one number.
#[derive(Clone, Copy, Debug, PartialEq, Eq)]
pub struct Worker {
    /// The first number of its range: its own.
    pub first: u64,
    /// The number behind its range. A worker with an empty range doesn't live.
    pub end: u64,
    /// The tile whose lock it holds.
    pub hand: Option<u64>,
}
