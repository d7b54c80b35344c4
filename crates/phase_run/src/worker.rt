//! What one worker does: it goes over all places, and finishes the tiles that it can claim.

ghost use Rattle.std.specs.Prelude.{◌≡◌, ℕ, ◌+◌, ◌<◌, ◌≤◌, [], ◌∷◌, ◌++◌, length, true, IfOk, OnOk, ◌⊎◌};
ghost use Rattle.tile_machine.specs.At.{At};
ghost use Rattle.tile_machine.specs.Late.{IfLate};
ghost use Rattle.tile_table.specs.declared.view.Hand.{Hand};
ghost use Rattle.tile_table.specs.Counts.{times_in, pair_times};
ghost use Rattle.tile_table.specs.Seats.{view, IsAt};
ghost use Rattle.phase_run.specs.declared.worker.Visit.{Visit};
ghost use Rattle.tile_table.specs.Stays.{IsAlone, Loses, Looked, TookOne};
ghost use Rattle.phase_run.specs.Tries.{tries_in_a_row};
ghost use Rattle.phase_run.specs.Tries.{HadOrLate};
ghost use Rattle.phase_run.specs.Inner.Workers.{Ready, Worked, Ended, Visits, Waiting, Finishes, GoesOver, WentOver, FinishesClaims};

use crate::seat_parts::SeatParts;
use crate::tries::taken_soon;
use host_port::{Gate, Moment};
use std::alloc::{AllocError, Global};
use tile_machine::{PartFault, Phase};
use tile_table::{Claim, Seat, TileTable};

/// What a worker did at a place.
#[derive(Clone, Copy, Debug, PartialEq, Eq)]
pub(crate) enum Visit {
    /// It claimed the tile, and finished it.
    Finished,
    /// It claimed the tile, and another worker held a lock that it needed for too long.
    PutOff,
    /// Another worker had claimed the tile.
    Passed,
}

/// A copy of the world's tile at a place that the seat has claimed and not finished.
fn tile_of<P: Phase>(
    alloc: Global,
    phase: &P,
    table: &TileTable<P>,
    seat: &mut Seat<P>,
    i: u64,
) -> Result<P::Tile, PartFault>
    requires table { IsAt table.now seat.old }
    requires hand { (view seat.old).hand ≡ Hand.Empty }
    requires place { i < length (view seat.old).world }
    requires claimed { 0 < pair_times (view seat.old).first i (view seat.old).claims }
    requires unmarked { times_in i (view seat.old).marks ≡ 0 }
    ensures looked { Looked seat.old seat.new }
    ensures tile { IfOk result (λ tile. At (view seat.old).world i tile) }
    ensures late { IfLate result (length (view seat.old).lost < length (view seat.new).lost) }
    ensures takes { HadOrLate result (TookOne i (view seat.old) (view seat.new)) ((view seat.new).takes ≡ (view seat.old).takes) }
    ensures few { length (view seat.new).lost ≤ length (view seat.old).lost + tries_in_a_row }
{
    match taken_soon(table, seat, i) {
        Ok(turn) => {
            let copy = phase.copy(alloc, turn.tile());
            table.give(seat, turn);
            match copy {
                Ok(tile) => Ok(tile),
                Err(_) => Err(PartFault::OutOfMemory),
            }
        }
        Err(busy) => Err(PartFault::Late {
            place: i,
            holder: busy.holder,
        }),
    }
}

/// The finished tile of a place that the seat has claimed and not finished.
fn rewritten<P: Phase>(
    alloc: Global,
    phase: &P,
    table: &TileTable<P>,
    seat: &mut Seat<P>,
    i: u64,
) -> Result<P::Tile, PartFault>
    requires ready { Ready table.now (P.fits phase.now) (P.finished phase.now) seat.old }
    requires place { i < length (view seat.old).world }
    requires claimed { 0 < pair_times (view seat.old).first i (view seat.old).claims }
    requires unmarked { times_in i (view seat.old).marks ≡ 0 }
    ensures looked { Looked seat.old seat.new }
    ensures tile { IfOk result (λ tile. At (view seat.old).goal i tile) }
    ensures late { IfLate result (length (view seat.old).lost < length (view seat.new).lost) }
{
    let tile = match tile_of(alloc, phase, table, seat, i) {
        Ok(tile) => tile,
        Err(fault) => return Err(fault),
    };
    let mut parts = SeatParts::new(phase, table, seat);
    phase.rewrite(alloc, i, tile, &mut parts)
}

/// Puts the finished tile in its place. The answer is whether its lock was had.
fn is_put<P: Phase>(table: &TileTable<P>, seat: &mut Seat<P>, i: u64, tile: P::Tile) -> bool
    requires table { IsAt table.now seat.old }
    requires hand { (view seat.old).hand ≡ Hand.Empty }
    requires place { i < length (view seat.old).world }
    requires claimed { 0 < pair_times (view seat.old).first i (view seat.old).claims }
    requires unmarked { times_in i (view seat.old).marks ≡ 0 }
    requires finished { At (view seat.old).goal i tile }
    ensures worked { Worked seat.old seat.new }
    ensures loses { Loses (view seat.old) (view seat.new) }
    ensures claims { (view seat.new).claims ≡ (view seat.old).claims }
    ensures seen { (view seat.new).seen ≡ (view seat.old).seen }
    ensures ended { Ended result (view seat.old) i (view seat.new) }
    ensures few { length (view seat.new).lost ≤ length (view seat.old).lost + tries_in_a_row }
{
    match taken_soon(table, seat, i) {
        Ok(turn) => {
            let _ = table.finish(seat, turn, tile);
            true
        }
        Err(_) => false,
    }
}

/// Finishes the tile of a place that the seat has claimed, or puts it off. The answer is whether it is finished.
fn finish_claimed<P: Phase, G: Gate>(
    alloc: Global,
    phase: &P,
    number: u8,
    table: &TileTable<P>,
    seat: &mut Seat<P>,
    i: u64,
    gate: &G,
) -> Result<bool, AllocError>
    requires ready { Ready table.now (P.fits phase.now) (P.finished phase.now) seat.old }
    requires place { i < length (view seat.old).world }
    requires claimed { 0 < pair_times (view seat.old).first i (view seat.old).claims }
    requires unmarked { times_in i (view seat.old).marks ≡ 0 }
    ensures worked { Worked seat.old seat.new }
    ensures loses { Loses (view seat.old) (view seat.new) }
    ensures claims { (view seat.new).claims ≡ (view seat.old).claims }
    ensures seen { (view seat.new).seen ≡ (view seat.old).seen }
    ensures ended { IfOk result (λ is_done. Ended is_done (view seat.old) i (view seat.new)) }
{
    let tile = match rewritten(alloc, phase, table, seat, i) {
        Ok(tile) => tile,
        Err(
            PartFault::Late {
                place: _,
                holder: _,
            },
        ) => return Ok(false),
        Err(PartFault::OutOfMemory) => return Err(AllocError),
    };
    if !is_put(table, seat, i, tile) {
        return Ok(false);
    }
    gate.at(
        seat.worker(),
        Moment::Finished {
            phase: number,
            tile: i,
        },
    );
    Ok(true)
}

/// Claims one place, and finishes its tile if the claim is the seat's own.
fn one_place<P: Phase, G: Gate>(
    alloc: Global,
    phase: &P,
    number: u8,
    table: &TileTable<P>,
    seat: &mut Seat<P>,
    i: u64,
    gate: &G,
) -> Result<Visit, AllocError>
    requires ready { Ready table.now (P.fits phase.now) (P.finished phase.now) seat.old }
    requires place { i < length (view seat.old).world }
    ensures worked { Worked seat.old seat.new }
    ensures loses { Loses (view seat.old) (view seat.new) }
    ensures visits { IfOk result (λ visit. Visits visit (view seat.old) i (view seat.new)) }
{
    match table.claim(seat, i) {
        Claim::Taken { by: _ } => Ok(Visit::Passed),
        Claim::Mine => {
            gate.at(
                seat.worker(),
                Moment::Claimed {
                    phase: number,
                    tile: i,
                },
            );
            match finish_claimed(alloc, phase, number, table, seat, i, gate) {
                Ok(true) => Ok(Visit::Finished),
                Ok(false) => Ok(Visit::PutOff),
                Err(fault) => Err(fault),
            }
        }
    }
}

/// Notes a place that was put off, if there is room for it.
fn note(places: &mut Vec<u64>, visit: Visit, i: u64)
    ensures { (places.new.items ≡ places.old.items) ⊎ ((visit ≡ Visit.PutOff) × (places.new.items ≡ places.old.items ++ i ∷ [])) }
{
    if let Visit::PutOff = visit {
        let _ = places.push(i);
    }
}

/// Goes over the places from `from` up to `to`, in order, and notes those that it puts off. Where there isn't memory enough, the
/// worker stops.
fn go_over<P: Phase, G: Gate>(
    alloc: Global,
    phase: &P,
    number: u8,
    table: &TileTable<P>,
    seat: &mut Seat<P>,
    from: u64,
    to: u64,
    later: &mut Vec<u64>,
    gate: &G,
) -> Result<(), AllocError>
    requires ready { Ready table.now (P.fits phase.now) (P.finished phase.now) seat.old }
    requires order { from ≤ to }
    requires places { to ≤ length (view seat.old).world }
    requires waiting { Waiting (view seat.old) later.old.items }
    ensures worked { Worked seat.old seat.new }
    ensures loses { Loses (view seat.old) (view seat.new) }
    ensures goes_over { OnOk result (GoesOver from to (view seat.old) (view seat.new)) }
    ensures waiting { OnOk result (Waiting (view seat.new) later.new.items) }
{
    for i in from..to {
        match one_place(alloc, phase, number, table, seat, i, gate) {
            Ok(visit) => note(later, visit, i),
            Err(fault) => return Err(fault),
        }
    }
    Ok(())
}

/// Tries the places once more that were put off.
fn go_over_again<P: Phase, G: Gate>(
    alloc: Global,
    phase: &P,
    number: u8,
    table: &TileTable<P>,
    seat: &mut Seat<P>,
    mut later: Vec<u64>,
    gate: &G,
) -> Result<(), AllocError>
    requires ready { Ready table.now (P.fits phase.now) (P.finished phase.now) seat.old }
    requires waiting { Waiting (view seat.old) later.items }
    ensures worked { Worked seat.old seat.new }
    ensures loses { Loses (view seat.old) (view seat.new) }
    ensures finishes { OnOk result (Finishes (view seat.old) (view seat.new)) }
{
    for _ in 0..later.len() {
        let Some(i) = later.pop() else {
            return Ok(());
        };
        match finish_claimed(alloc, phase, number, table, seat, i, gate) {
            Ok(_) => {}
            Err(fault) => return Err(fault),
        }
    }
    Ok(())
}

/// The whole work of one worker, which goes over all places: from `start` up to the last, and then from the first. What it has to
/// put off it tries once more at the end. The answer is its seat, and whether there was memory enough: where there wasn't, the
/// worker claims no more.
pub(crate) fn work<P: Phase, G: Gate>(
    alloc: Global,
    phase: &P,
    number: u8,
    table: &TileTable<P>,
    mut seat: Seat<P>,
    start: u64,
    gate: &G,
) -> (Seat<P>, bool)
    requires ready { Ready table.now (P.fits phase.now) (P.finished phase.now) seat }
    ensures worked { Worked seat result.0 }
    ensures went_over { result.1 ≡ true → WentOver (view seat) (view result.0) }
    ensures alone { result.1 ≡ true → IsAlone (view seat) → FinishesClaims (view seat) → FinishesClaims (view result.0) }
{
    let tiles = seat.tiles();
    let start = start.min(tiles);
    let mut later = Vec::new(alloc);
    match go_over(
        alloc, phase, number, table, &mut seat, start, tiles, &mut later, gate,
    ) {
        Ok(()) => {}
        Err(_) => return (seat, false),
    }
    match go_over(
        alloc, phase, number, table, &mut seat, 0, start, &mut later, gate,
    ) {
        Ok(()) => {}
        Err(_) => return (seat, false),
    }
    match go_over_again(alloc, phase, number, table, &mut seat, later, gate) {
        Ok(()) => (seat, true),
        Err(_) => (seat, false),
    }
}
