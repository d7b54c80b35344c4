//! A table is closed, and gives its tiles back.

ghost use Rattle.std.specs.Prelude.{◌≡◌, ℕ, ◌<◌, ◌≤◌, [], length, vec_capacity};
ghost use Rattle.tile_table.specs.declared.view.Hand.{Hand};
ghost use Rattle.tile_table.specs.Seats.{view, IsAt};
ghost use Rattle.tile_table.specs.Calls.{ClosedBy};

use crate::seat::{Closed, Seat};
use crate::table::TileTable;
use tile_machine::Phase;

impl<P: Phase> TileTable<P> {
    /// The tiles in order, each with whether it is done, once the seat has all the numbers again. They come in the empty `room`,
    /// which is large enough.
    pub fn close(self, seat: Seat<P>, mut room: Vec<Closed<P>>) -> Vec<Closed<P>>
        requires table { IsAt self seat }
        requires first { (view seat).first ≡ 0 }
        requires all { (view seat).end ≡ (view seat).all }
        requires hand { (view seat).hand ≡ Hand.Empty }
        requires empty { room.items ≡ [] }
        requires large { length (view seat).world ≤ vec_capacity room }
        ensures { ClosedBy (view seat) result.items }
    {
        let count = seat.count;
        let mut closed = self.into_table().close_with(seat.into_place());
        for i in 0..count {
            let done = closed.word(3 * i as usize + 2) == 1;
            let Some(tile) = closed.take(i as usize) else {
                unreachable!()
            };
            let Ok(()) = room.push(Closed { tile, done }) else {
                unreachable!()
            };
        }
        closed.free();
        room
    }
}
