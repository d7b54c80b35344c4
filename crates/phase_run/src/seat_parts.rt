//! The readable parts of a table's tiles, as the worker of a seat reads them.

ghost use Rattle.std.specs.Prelude.{◌≡◌, ◌+◌, ◌<◌, ◌≤◌, List, length, map, true, IfOk, refl};
ghost use Rattle.std.proofs.Common.{◌∙◌, ap};
ghost use Rattle.tile_machine.specs.At.{At};
ghost use Rattle.tile_machine.specs.Late.{IfLate};
ghost use Rattle.tile_table.specs.declared.view.Hand.{Hand};
ghost use Rattle.tile_table.specs.Seats.{view, IsAt};
ghost use Rattle.tile_table.specs.Stays.{is_empty, Looked, TookOne, Shown};
ghost use Rattle.phase_run.specs.Tries.{TriedInVain, tries_in_a_row};
ghost use Rattle.phase_run.specs.Tries.{IfLateAt, HadOrLate};

use crate::tries::TRIES;
use std::alloc::Global;
use tile_machine::{PartFault, Parts, Phase};
use tile_table::{Seat, TileTable, Unseen};

/// The readable part of the tile at place `j`, looked at until it is seen, at most 1,000 times in a row. It shows the same of the
/// world's tile and of the finished one, so it doesn't matter which of them is there.
fn part_of<P: Phase>(
    alloc: Global,
    phase: &P,
    table: &TileTable<P>,
    seat: &mut Seat<P>,
    j: u64,
) -> Result<P::Part, PartFault>
    requires table { IsAt table.now seat.old }
    requires hand { (view seat.old).hand ≡ Hand.Empty }
    requires place { j < length (view seat.old).world }
    ensures looked { Looked seat.old seat.new }
    ensures takes { HadOrLate result (TookOne j (view seat.old) (view seat.new)) ((view seat.new).takes ≡ (view seat.old).takes) }
    ensures few { length (view seat.new).lost ≤ length (view seat.old).lost + tries_in_a_row }
    ensures part { IfOk result (λ p. (ps : List P.Part) → Shown (P.readable phase.now) (view seat.old) ps → At ps j p) }
    ensures tries { IfLateAt result (TriedInVain j (view seat.old) (view seat.new)) }
{
    let mut holder = 0;
    for tried in 0..TRIES {
        match table.look(alloc, phase, seat, j) {
            Ok(part) => return Ok(part),
            Err(Unseen::OutOfMemory) => return Err(PartFault::OutOfMemory),
            Err(Unseen::Busy { holder: by }) => holder = by,
        }
    }
    Err(PartFault::Late { place: j, holder })
}

/// The readable parts of the world of a seat, read from the tiles that the workers share. A tile is read under its lock, which
/// is given back before `part` answers, so the seat holds no lock between two calls.
#[derive(Drop)]
pub struct SeatParts<'a, P: Phase> {
    phase: &'a P,
    table: &'a TileTable<P>,
    seat: &'a mut Seat<P>,
    ghost at: { IsAt table.now seat.now },
    ghost empty: { is_empty (view seat.now).hand ≡ true },
}

impl<'a, P: Phase> SeatParts<'a, P> {
    ghost use Rattle.phase_run.specs.PartsSeat.{parts_phase, parts_table, parts_seat};

    /// The parts of the seat's world. The phase fits that world, and its finished tiles are the seat's goal. It takes no memory.
    pub fn new(phase: &'a P, table: &'a TileTable<P>, seat: &'a mut Seat<P>) -> SeatParts<'a, P>
        requires table { IsAt table.now seat.old }
        requires hand { (view seat.old).hand ≡ Hand.Empty }
        requires fits { P.fits phase.now (view seat.old).world }
        requires goal { (view seat.old).goal ≡ P.finished phase.now (view seat.old).world }
        ensures phase { parts_phase result ≡ phase.now }
        ensures table { parts_table result ≡ table.now }
        ensures seat { result.seat.ghost_name ≡ seat.entry.ghost_name }
        ensures same { parts_seat result ≡ seat.old }
        ensures shows { Shown (P.readable phase.now) (view seat.old) (map (P.readable phase.now) (view seat.old).world) }
    {
        SeatParts { phase, table, seat }
    }
}

impl<'a, P: Phase> Parts<P::Part> for SeatParts<'a, P> {
    ghost use Rattle.phase_run.specs.PartsSeat.{parts_phase, parts_seat};
    ghost use Rattle.tile_table.proofs.Staying.{looked-same, looked-on, shown-again, shown-many};

    ghost shows = { λ a ps. Shown (P.readable a.phase.now) (view a.seat.now) ps };

    ghost places = { λ a. length (view a.seat.now).world };

    ghost lost = { λ a. length (view a.seat.now).lost };

    ghost stays = { λ a b. (b.phase ≡ a.phase) × (b.table ≡ a.table) × (b.seat.ghost_name ≡ a.seat.ghost_name) × Looked a.seat.now b.seat.now };

    ghost stays_same = { λ a. (refl, refl, refl, looked-same a.seat.now a.empty) };

    ghost stays_on = { λ a b c h k. (k.0 ∙ h.0, k.1 ∙ h.1, k.2 ∙ h.2, looked-on a.seat.now b.seat.now c.seat.now h.3 k.3) };

    ghost stays_shown = { λ a b ps h shown. shown-again P.readable a.phase.now b.phase.now (view a.seat.now) (view b.seat.now) ps (ap (λ r. r.now) h.0) h.3.unchanged shown };

    ghost counts = { λ a ps shown. shown-many (P.readable a.phase.now) (view a.seat.now) ps shown };

    fn count(&self) -> u64 {
        self.seat.tiles()
    }

    fn part(&mut self, alloc: Global, j: u64) -> Result<P::Part, PartFault>
        requires { j < length (view (parts_seat self.old)).world }
        ensures stays { (self.new.phase ≡ self.old.phase) × (self.new.table ≡ self.old.table) × (self.new.seat.ghost_name ≡ self.old.seat.ghost_name) × Looked (parts_seat self.old) (parts_seat self.new) }
        ensures lost { length (view (parts_seat self.old)).lost ≤ length (view (parts_seat self.new)).lost }
        ensures part { IfOk result (λ p. (ps : List P.Part) → Shown (P.readable (parts_phase self.old)) (view (parts_seat self.old)) ps → At ps j p) }
        ensures late { IfLate result (length (view (parts_seat self.old)).lost < length (view (parts_seat self.new)).lost) }
        ensures tries { IfLateAt result (TriedInVain j (view (parts_seat self.old)) (view (parts_seat self.new))) }
        ensures takes { HadOrLate result (TookOne j (view (parts_seat self.old)) (view (parts_seat self.new))) ((view (parts_seat self.new)).takes ≡ (view (parts_seat self.old)).takes) }
        ensures few { length (view (parts_seat self.new)).lost ≤ length (view (parts_seat self.old)).lost + tries_in_a_row }
    {
        part_of(alloc, self.phase, self.table, &mut *self.seat, j)
    }
}
