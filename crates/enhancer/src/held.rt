//! Rows that were read and are at hand.
ghost use Rattle.std.specs.Prelude.{◌≡◌, ◌==◌, ◌<◌, length, position};
ghost use Rattle.work_tile.specs.Places.{tile_number, NumbersRise};

use crate::readable::ReadableTile;
use work_tile::Places;

/// Rows that were read, with their place.
#[derive(Drop)]
pub(crate) struct Held {
    pub place: u64,
    pub rows: ReadableTile,
}

/// What the rows at hand tell.
#[derive(Clone, Copy, Debug)]
pub(crate) enum Told<T> {
    /// This.
    Known(T),
    /// The rows of this place are missing.
    Missing(u64),
}

/// The place of a tile.
pub(crate) fn place_of(places: &Places, level: u32, tile: u32) -> Option<u64>
    requires { NumbersRise places.now }
    ensures { result ≡ position (λ n. n == tile_number level tile) places.now }
{
    places.place(level, tile)
}

/// Where the rows of a place are at hand.
pub(crate) fn held_at(held: &[Held], place: u64) -> Option<usize>
    ensures { result ≡ position (λ h. h.place == place) held.now }
{
    held.iter().position(|h| h.place == place)
}
