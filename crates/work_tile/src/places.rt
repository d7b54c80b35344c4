//! Which tiles there are, in order.
ghost use Rattle.std.specs.Prelude.{◌≡◌, ◌≢◌, ◌<◌, ℕ, length, slice_index, IfOk, IfSome, IfNone};
ghost use Rattle.work_tile.specs.Places.{tile_number, place_numbers, NumbersRise};

use crate::tiles::WorkTile;
use std::alloc::{AllocError, Global};
use std::marker::Model;

/// Tiles in order of level and number. Contracts see the list of these, each as one number, in which the level
/// counts 2^32 and the tile one. It takes 8 bytes a tile.
#[derive(Debug, Drop)]
pub struct Places {
    numbers: Vec<u64>,
}

impl Model for Places {
    ghost use Rattle.std.specs.Prelude.{ℕ, List};
    ghost use Rattle.work_tile.specs.Places.{NumbersRise};

    ghost Value = { List ℕ };

    ghost view = { λ p. p.numbers.items };

    ghost invariant = { λ p. NumbersRise p.numbers.items };
}

/// A level and a tile in one number.
fn number_of(level: u32, tile: u32) -> u64
    ensures { result ≡ tile_number level tile }
{
    (u64::from(level) << 32) + u64::from(tile)
}

/// The place of a number among numbers that rise.
fn find(numbers: &[u64], number: u64) -> Option<usize>
    requires { NumbersRise numbers.now }
    ensures some { IfSome result (λ i. (i < length numbers.now) × (slice_index numbers.now i ≡ number)) }
    ensures none { IfNone result ((k : ℕ) → k < length numbers.now → slice_index numbers.now k ≢ number) }
{
    numbers.binary_search(&number).ok()
}

impl Places {
    /// The places of tiles that rise strictly by level and number.
    pub fn of_tiles(alloc: Global, tiles: &[WorkTile]) -> Result<Places, AllocError>
        requires { NumbersRise (place_numbers tiles.now) }
        ensures { IfOk result (λ places. places ≡ place_numbers tiles.now) }
    {
        let mut numbers = Vec::new(alloc);
        for tile in tiles {
            let rows = tile.rows();
            numbers.push(number_of(rows.level(), rows.tile()))?;
        }
        Ok(Places { numbers })
    }

    /// The number of tiles.
    pub fn len(&self) -> usize
        ensures { result ≡ length self.now }
    {
        self.numbers.len()
    }

    /// The place of a tile, from 0 on, and `None` where it isn't among them.
    pub fn place(&self, level: u32, tile: u32) -> Option<u64>
        ensures some { IfSome result (λ i. (i < length self.now) × (slice_index self.now i ≡ tile_number level tile)) }
        ensures none { IfNone result ((k : ℕ) → k < length self.now → slice_index self.now k ≢ tile_number level tile) }
    {
        match find(self.numbers.as_slice(), number_of(level, tile)) {
            Some(i) => Some(i as u64),
            None => None,
        }
    }
}
