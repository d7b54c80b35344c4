//! A seat's range is cut, and ranges are put together again.

ghost use Rattle.std.specs.Prelude.{◌≡◌, ℕ, ◌<◌};
ghost use Rattle.tile_table.specs.declared.view.Hand.{Hand};
ghost use Rattle.tile_table.specs.Views.{lower, upper, joined_views};
ghost use Rattle.tile_table.specs.Seats.{view, seat_name, IsAt};

use crate::plays::{Append, Cut, Number};
use crate::seat::Seat;
use crate::table::TileTable;
use std::marker::Brand;
use tile_machine::Phase;

impl<P: Phase> TileTable<P> {
    /// Cuts the seat's range at `at`. The answer is the seat of a new worker, with the numbers from `at` on: it has done nothing.
    pub fn split(&self, seat: &mut Seat<P>, at: u64) -> Seat<P>
        requires table { IsAt self.now seat.old }
        requires above { (view seat.old).first < at }
        requires below { at < (view seat.old).end }
        ensures table { seat_name seat.new ≡ seat_name seat.old }
        ensures view { view seat.new ≡ lower at (view seat.old) }
        ensures new_table { seat_name result ≡ seat_name seat.old }
        ensures new_view { view result ≡ upper at (view seat.old) }
    {
        self.split_by::<Brand>(seat, at)
    }

    fn split_by<N: Number>(&self, seat: &mut Seat<P>, at: u64) -> Seat<P>
        requires number { N.number ≡ at }
        requires table { IsAt self.now seat.old }
        requires above { (view seat.old).first < at }
        requires below { at < (view seat.old).end }
        ensures table { seat_name seat.new ≡ seat_name seat.old }
        ensures view { view seat.new ≡ lower at (view seat.old) }
        ensures new_table { seat_name result ≡ seat_name seat.old }
        ensures new_view { view result ≡ upper at (view seat.old) }
    {
        let new = self.table.shared.split_seat::<Cut<N>>(&mut seat.seat);
        Seat {
            seat: new,
            number: at,
            count: seat.count,
        }
    }

    /// Adds the range of the next seat, which ends, and all that it did.
    pub fn join(&self, seat: &mut Seat<P>, other: Seat<P>)
        requires table { IsAt self.now seat.old }
        requires other_table { IsAt self.now other }
        requires next { (view other).first ≡ (view seat.old).end }
        requires hand { (view other).hand ≡ Hand.Empty }
        ensures table { seat_name seat.new ≡ seat_name seat.old }
        ensures view { view seat.new ≡ joined_views (view seat.old) (view other) }
    {
        let other = other.into_place();
        self.table.shared.join_seat::<Append>(&mut seat.seat, other);
    }
}
