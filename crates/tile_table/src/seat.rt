//! The seat of a worker at a table, and the lock of a tile.

ghost use Rattle.std.specs.Prelude.{◌≡◌, ◌<◌, ◌≤◌, length, true};
ghost use Rattle.tile_table.specs.Inner.OutSlots.{slots_fit};

use crate::view::View;
use atomic_table::Seat as Place;
use tile_machine::Phase;

/// A worker's seat. Contracts speak of its `view`. It goes to another thread where the tiles may.
pub struct Seat<P: Phase> {
    pub(crate) seat: Place<Option<P::Tile>, View<P::Tile>>,
    pub(crate) number: u64,
    pub(crate) count: u64,
    ghost numbered: { number ≡ seat.me.0.first },
    ghost live: { number < seat.me.0.end },
    ghost few: { seat.me.0.end ≤ 64 },
    ghost counted: { count ≡ length seat.me.0.world },
    ghost placed: { seat.table_id.slots ≡ count },
    ghost slots: { slots_fit seat.me.0.hand seat.me.1 ≡ true },
}

impl<P: Phase> Drop for Seat<P> {
    fn drop(self) {
        let Seat {
            seat: _,
            number: _,
            count: _,
        } = self;
    }
}

impl<P: Phase> Seat<P> {
    pub(crate) fn into_place(self) -> Place<Option<P::Tile>, View<P::Tile>>
        ensures { result ≡ self.seat }
    {
        let Seat {
            seat,
            number: _,
            count: _,
        } = self;
        seat
    }
}

/// A tile's lock in the hand of a seat, with the tile. It has to be spent, by `give` or `finish`.
pub struct Turn<P: Phase> {
    pub(crate) place: u64,
    pub(crate) tile: P::Tile,
    pub(crate) marked: bool,
}

/// A tile of a table that was closed, and whether it is finished.
pub struct Closed<P: Phase> {
    pub tile: P::Tile,
    pub done: bool,
}

impl<P: Phase> Drop for Closed<P> {
    fn drop(self) {
        let Closed { tile: _, done: _ } = self;
    }
}

impl<P: Phase> Closed<P> {
    /// The tile alone.
    pub fn into_tile(self) -> P::Tile
        ensures { result ≡ self.tile }
    {
        let Closed { tile, done: _ } = self;
        tile
    }
}
