//! Turns are taken, given back and finished, and the tiles of others are looked at.

ghost use Rattle.std.specs.Prelude.{◌≡◌, ℕ, ◌<◌, [], ◌∷◌, length, Some, None, IfOk, IfErr};
ghost use Rattle.tile_machine.specs.At.{At};
ghost use Rattle.tile_table.specs.declared.view.Hand.{Hand};
ghost use Rattle.tile_table.specs.Counts.{bit, times_in, pair_times};
ghost use Rattle.tile_table.specs.Views.{with_no_hand, with_mark};
ghost use Rattle.tile_table.specs.Seats.{view, table_name, seat_name, IsAt, turn_place, turn_tile, turn_marked, HasTurn};
ghost use Rattle.tile_table.specs.Calls.{TurnHad, LockMissed, PartSeen, LookedAt};

use crate::answer::{Busy, Unseen};
use crate::plays::{FreeLock, SetMark, TryMarked, TryUnmarked};
use crate::seat::{Seat, Turn};
use crate::table::TileTable;
use crate::view::View;
use atomic_table::Seat as Place;
use std::alloc::Global;
use tile_machine::Phase;

/// The number that a lock word has where the lock is free.
fn free_lock(marked: bool) -> u64
    ensures { result ≡ bit marked }
{
    if marked { 1 } else { 0 }
}

impl<P: Phase> Turn<P> {
    pub fn place(&self) -> u64
        ensures { result ≡ turn_place self.now }
    {
        self.place
    }

    pub fn tile(&self) -> &P::Tile
        ensures { result.now ≡ turn_tile self.now }
    {
        &self.tile
    }
}

impl<P: Phase> TileTable<P> {
    // The tile of the slot that the seat has just got.
    fn brought_out(
        &self,
        place: &mut Place<Option<P::Tile>, View<P::Tile>>,
        j: u64,
        marked: bool,
    ) -> Turn<P>
        requires table { place.old.table_id ≡ table_name self.now }
        requires slot { (tile : _) × (place.old.me.1 ≡ (j, Some tile) ∷ []) }
        ensures table { place.new.table_id ≡ place.old.table_id }
        ensures view { place.new.me.0 ≡ place.old.me.0 }
        ensures out { place.new.me.1 ≡ (j, None) ∷ [] }
        ensures tile { place.old.me.1 ≡ (j, Some (turn_tile result)) ∷ [] }
        ensures place { turn_place result ≡ j }
        ensures marked { turn_marked result ≡ marked }
    {
        let Some(tile) = self.table.shared.exchange(place, j as usize, None) else {
            unreachable!()
        };
        Turn {
            place: j,
            tile,
            marked,
        }
    }

    // The lock of place `j`, with its tile.
    fn reached(&self, seat: &mut Seat<P>, j: u64) -> Result<Turn<P>, Busy>
        requires table { IsAt self.now seat.old }
        requires hand { (view seat.old).hand ≡ Hand.Empty }
        requires place { j < length (view seat.old).world }
        ensures table { seat_name seat.new ≡ seat_name seat.old }
        ensures turn { IfOk result (λ turn. TurnHad (view seat.old) j turn (view seat.new)) }
        ensures busy { IfErr result (λ busy. LockMissed (view seat.old) j busy.holder (view seat.new)) }
    {
        let number = seat.number;
        let word = 3 * j as usize + 1;
        let shared = &self.table.shared;
        let found = shared.compare_exchange::<TryUnmarked>(&mut seat.seat, word, 0, number + 2);
        if found == 0 {
            return Ok(self.brought_out(&mut seat.seat, j, false));
        }
        if found > 1 {
            return Err(Busy { holder: found - 2 });
        }
        let again = shared.compare_exchange::<TryMarked>(&mut seat.seat, word, 1, number + 2);
        if again > 1 {
            return Err(Busy { holder: again - 2 });
        }
        Ok(self.brought_out(&mut seat.seat, j, true))
    }

    /// Takes the lock of place `j`, which the seat has claimed, with its whole tile. `Busy` names a worker whose number isn't in
    /// the seat's range. So a seat with all the numbers is never told so.
    pub fn take(&self, seat: &mut Seat<P>, j: u64) -> Result<Turn<P>, Busy>
        requires table { IsAt self.now seat.old }
        requires hand { (view seat.old).hand ≡ Hand.Empty }
        requires place { j < length (view seat.old).world }
        requires claimed { 0 < pair_times (view seat.old).first j (view seat.old).claims }
        ensures table { seat_name seat.new ≡ seat_name seat.old }
        ensures turn { IfOk result (λ turn. TurnHad (view seat.old) j turn (view seat.new)) }
        ensures busy { IfErr result (λ busy. LockMissed (view seat.old) j busy.holder (view seat.new)) }
    {
        self.reached(seat, j)
    }

    /// The part of the tile at place `j` that the phase lets others read. Its lock is taken for that, and given back. It shows the
    /// same of the world's tile and of the finished one, where the phase keeps it as it is.
    pub fn look(
        &self,
        alloc: Global,
        phase: &P,
        seat: &mut Seat<P>,
        j: u64,
    ) -> Result<P::Part, Unseen>
        requires table { IsAt self.now seat.old }
        requires hand { (view seat.old).hand ≡ Hand.Empty }
        requires place { j < length (view seat.old).world }
        ensures table { seat_name seat.new ≡ seat_name seat.old }
        ensures seen { IfOk result (λ part. PartSeen (P.readable phase.now) (view seat.old) j part) }
        ensures view { LookedAt result (view seat.old) j (view seat.new) }
    {
        match self.reached(seat, j) {
            Ok(turn) => {
                let part = phase.part(alloc, turn.tile());
                self.give(seat, turn);
                match part {
                    Ok(part) => Ok(part),
                    Err(_) => Err(Unseen::OutOfMemory),
                }
            }
            Err(busy) => Err(Unseen::Busy {
                holder: busy.holder,
            }),
        }
    }

    /// Gives a lock back, with its tile.
    pub fn give(&self, seat: &mut Seat<P>, turn: Turn<P>)
        requires table { IsAt self.now seat.old }
        requires turn { HasTurn (view seat.old) turn }
        ensures table { seat_name seat.new ≡ seat_name seat.old }
        ensures view { view seat.new ≡ with_no_hand (view seat.old) }
    {
        let Turn {
            place,
            tile: shown,
            marked,
        } = turn;
        let shared = &self.table.shared;
        let _ = shared.exchange(&mut seat.seat, place as usize, Some(shown));
        shared.store::<FreeLock>(&mut seat.seat, 3 * place as usize + 1, free_lock(marked));
    }

    /// Marks a tile that the seat has claimed as finished, puts the finished tile in its place and gives the lock back. The
    /// answer is the tile that was there.
    pub fn finish(&self, seat: &mut Seat<P>, turn: Turn<P>, tile: P::Tile) -> P::Tile
        requires table { IsAt self.now seat.old }
        requires turn { HasTurn (view seat.old) turn }
        requires claimed { 0 < pair_times (view seat.old).first (turn_place turn) (view seat.old).claims }
        requires unmarked { times_in (turn_place turn) (view seat.old).marks ≡ 0 }
        requires finished { At (view seat.old).goal (turn_place turn) tile }
        ensures table { seat_name seat.new ≡ seat_name seat.old }
        ensures view { view seat.new ≡ with_no_hand (with_mark (view seat.old) (turn_place turn)) }
        ensures old { result ≡ turn_tile turn }
    {
        let Turn {
            place,
            tile: before,
            marked: _,
        } = turn;
        let shared = &self.table.shared;
        shared.store::<SetMark>(&mut seat.seat, 3 * place as usize + 2, 1);
        let _ = shared.exchange(&mut seat.seat, place as usize, Some(tile));
        shared.store::<FreeLock>(&mut seat.seat, 3 * place as usize + 1, free_lock(true));
        before
    }
}
