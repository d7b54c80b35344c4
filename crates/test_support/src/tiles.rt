//! Files of tiles, word by word.

use std::alloc::{AllocError, Global};

/// The file of tile 519120 of level 2 for cars, with the road of the small extract: residential way 10 from node 1 at
/// (0, 0) to node 2 at (0, 10,000).
pub const ROAD: [u64; 29] = [
    0x3130_454c_4954_4a4d,
    0x3f_5e82,
    0,
    0x2_0000_0002,
    0,
    0,
    0x28,
    0x1_0000_0000_00e8,
    1,
    0,
    0x20_0000,
    0x4f,
    2,
    0x2710_0000_0000,
    0x20_0001,
    0x4f,
    0x23f_5e82,
    0x2000_0000_2b7c,
    0x6_004f_004f,
    0,
    0x3f_5e82,
    0x2b7c,
    0x6_004f_004f,
    0,
    10,
    0,
    2,
    0,
    0x2710,
];

/// The bytes of these words, each with its lowest byte first.
pub fn word_bytes(alloc: Global, words: &[u64]) -> Result<Vec<u8>, AllocError> {
    let mut bytes = Vec::new(alloc);
    for word in words {
        bytes.extend_from_slice(&word.to_le_bytes())?;
    }
    Ok(bytes)
}

/// The bytes of the road's tile as it is built for these modes, which are told in the highest bytes of word 7, at 62
/// and 63: all else of it is the same.
pub fn road_tile(alloc: Global, modes: u8) -> Result<Vec<u8>, AllocError> {
    let mut bytes = word_bytes(alloc, &ROAD)?;
    if let Some(low) = bytes.get_mut(62) {
        *low = modes;
    }
    Ok(bytes)
}
