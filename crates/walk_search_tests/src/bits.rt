//! Sets of numbers below 64, as the bits of a word, and a word for each length.

use std::alloc::{AllocError, Global};

/// The longest walks that are looked for, in centimetres.
pub(crate) const BOUND: usize = 1_000;

/// The set of this number alone; of none where it isn't below 64.
pub(crate) fn bit(number: usize) -> u64 {
    if number < 64 { 1u64 << number } else { 0 }
}

/// The set of this OSM id alone; of none where it is below 0 or above 63.
pub(crate) fn bit_of_id(id: i64) -> u64 {
    if id < 0 { 0 } else { bit(id as usize) }
}

/// Whether a number is in a set.
pub(crate) fn has(set: u64, number: usize) -> bool {
    set & bit(number) != 0
}

/// An empty set for each length up to the bound.
pub(crate) fn no_sets(alloc: Global) -> Result<Vec<u64>, AllocError> {
    let mut sets = Vec::new(alloc);
    for _ in 0..=BOUND {
        sets.push(0u64)?;
    }
    Ok(sets)
}

/// The set of a length.
pub(crate) fn set_of(sets: &[u64], length: usize) -> u64 {
    sets.get(length).copied().unwrap_or(0)
}

/// Puts these numbers into the set of a length; nothing where it is above the bound.
pub(crate) fn put(sets: &mut [u64], length: usize, numbers: u64) {
    if let Some(set) = sets.get_mut(length) {
        *set |= numbers;
    }
}

/// How many numbers all sets have together.
pub(crate) fn count(sets: &[u64]) -> u64 {
    let mut count = 0u64;
    for set in sets {
        count = count.saturating_add(u64::from(set.count_ones()));
    }
    count
}
