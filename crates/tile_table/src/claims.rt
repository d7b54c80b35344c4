//! Claims, and what a seat says of itself.

ghost use Rattle.std.specs.Prelude.{◌≡◌, ℕ, ◌<◌, length};
ghost use Rattle.tile_table.specs.declared.answer.Claim.{Claim};
ghost use Rattle.tile_table.specs.Counts.{pair_times};
ghost use Rattle.tile_table.specs.Seats.{view, seat_name, IsAt};
ghost use Rattle.tile_table.specs.Calls.{Claimed};
ghost use Rattle.tile_table.specs.Inner.Steps.{ClaimRead};

use crate::answer::Claim;
use crate::plays::{SeeClaim, TryClaim};
use crate::seat::Seat;
use crate::table::TileTable;
use tile_machine::Phase;

impl<P: Phase> Seat<P> {
    /// The number of its worker: the first of its range.
    pub fn worker(&self) -> u64
        ensures { result ≡ (view self.now).first }
    {
        self.number
    }

    /// The number of its table's tiles.
    pub fn tiles(&self) -> u64
        ensures { result ≡ length (view self.now).world }
    {
        self.count
    }
}

impl<P: Phase> TileTable<P> {
    // Who has claimed place `i`, if anybody has. Only read: a word that is written goes from one processor to another.
    fn claimant(&self, seat: &mut Seat<P>, i: u64) -> Option<u64>
        requires table { IsAt self.now seat.old }
        requires place { i < length (view seat.old).world }
        ensures table { seat_name seat.new ≡ seat_name seat.old }
        ensures view { ClaimRead result (view seat.old) i (view seat.new) }
    {
        let shared = &self.table.shared;
        let read = shared.load::<SeeClaim>(&mut seat.seat, 3 * i as usize);
        if read > 0 { Some(read - 1) } else { None }
    }

    fn try_claim(&self, seat: &mut Seat<P>, i: u64) -> Claim
        requires table { IsAt self.now seat.old }
        requires place { i < length (view seat.old).world }
        ensures table { seat_name seat.new ≡ seat_name seat.old }
        ensures view { Claimed (view seat.old) i result (view seat.new) }
        ensures mine { result ≡ Claim.Mine → 0 < pair_times (view seat.new).first i (view seat.new).claims }
    {
        let number = seat.number;
        let shared = &self.table.shared;
        let found = shared.compare_exchange::<TryClaim>(
            &mut seat.seat,
            3 * i as usize,
            0,
            number + 1,
        );
        if found == 0 {
            Claim::Mine
        } else {
            Claim::Taken { by: found - 1 }
        }
    }

    /// Claims place `i` for the seat's worker. `Taken` says whose claim was read: it stays so.
    ///
    /// The claim is read first, and exchanged only where nobody has it. So workers that come to claimed tiles don't take the
    /// words from each other.
    pub fn claim(&self, seat: &mut Seat<P>, i: u64) -> Claim
        requires table { IsAt self.now seat.old }
        requires place { i < length (view seat.old).world }
        ensures table { seat_name seat.new ≡ seat_name seat.old }
        ensures view { Claimed (view seat.old) i result (view seat.new) }
        ensures mine { result ≡ Claim.Mine → 0 < pair_times (view seat.new).first i (view seat.new).claims }
    {
        match self.claimant(seat, i) {
            Some(by) => Claim::Taken { by },
            None => self.try_claim(seat, i),
        }
    }
}
