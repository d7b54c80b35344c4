//! What roads may have at most.

/// The most pieces that roads may have.
pub const MOST_PIECES: u64 = 4_000_000;

/// The greatest length of a piece in centimetres.
pub const LONGEST_PIECE_CM: u64 = 268_435_455;
