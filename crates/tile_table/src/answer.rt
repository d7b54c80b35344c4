//! What the calls answer.

/// What a claim found.
#[derive(Clone, Copy, Debug, PartialEq, Eq)]
pub enum Claim {
    /// The seat has the claim now.
    Mine,
    /// That worker has it, for good.
    Taken { by: u64 },
}

/// Another worker held the lock: its number stood in the lock's word.
#[derive(Clone, Copy, Debug, PartialEq, Eq)]
pub struct Busy {
    pub holder: u64,
}

/// Why a part wasn't seen.
#[derive(Clone, Copy, Debug, PartialEq, Eq)]
pub enum Unseen {
    /// Another worker held the lock.
    Busy { holder: u64 },
    /// There was no memory for the part.
    OutOfMemory,
}
