//! Gates, at which a test can hold the workers of a concurrent phase.

/// A moment in a worker's work on one tile of a phase. The phases are numbered: 1 enhances the tiles,
/// 2 adds the shortcuts, 3 finds the opposing edges.
#[derive(Clone, Copy, Debug, PartialEq, Eq)]
pub enum Moment {
    /// The worker has claimed the tile, and hasn't begun on it.
    Claimed { phase: u8, tile: u64 },
    /// The worker has finished the tile.
    Finished { phase: u8, tile: u64 },
}

/// What every worker passes at each of its moments. It may hold the worker, and changes no value.
pub trait Gate: Sync {
    /// The worker of that number has come to this moment.
    fn at(&self, worker: u64, moment: Moment);
}

/// The gate that holds nobody.
#[derive(Clone, Copy, Debug, PartialEq, Eq)]
pub struct NoGate;

impl Gate for NoGate {
    fn at(&self, _worker: u64, _moment: Moment) {}
}
