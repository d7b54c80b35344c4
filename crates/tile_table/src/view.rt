//! What a seat of a table knows. No value of these types is made: they stand in contracts and proofs alone.

use std::collections::LinkedList;

/// The tile whose lock a seat holds.
pub enum Hand {
    Empty,
    /// This place, and whether its tile is marked.
    Holds(u64, bool),
}

/// What a seat knows of its table, and what it did there.
pub struct View<T> {
    /// The tiles as the stage began, one for each place.
    pub world: LinkedList<T>,
    /// The finished tiles, one for each place.
    pub goal: LinkedList<T>,
    /// The first number of the seat's range: its own.
    pub first: u64,
    /// The number behind its range.
    pub end: u64,
    /// How many numbers there are.
    pub all: u64,
    pub hand: Hand,
    /// Each claim that succeeded: a worker and a place.
    pub claims: LinkedList<(u64, u64)>,
    /// Each lock that was taken: a worker and a place.
    pub takes: LinkedList<(u64, u64)>,
    /// The places that were marked.
    pub marks: LinkedList<u64>,
    /// Each claim of another that was met: a place and the claimant.
    pub seen: LinkedList<(u64, u64)>,
    /// Each lock that was tried while another held it: a place and the holder.
    pub lost: LinkedList<(u64, u64)>,
    /// The places that were read as marked.
    pub known: LinkedList<u64>,
}
