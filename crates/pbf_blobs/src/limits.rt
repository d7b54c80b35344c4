//! How long the parts of a PBF file may be, in bytes.

/// A header has fewer bytes than this.
pub const HEADER_LIMIT: u32 = 65_536;

/// The most bytes of a Blob.
pub const MOST_BLOB: u64 = 33_554_496;

/// The most bytes of an input.
pub const MOST_INPUT: u64 = 536_870_912;
