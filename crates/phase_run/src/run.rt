//! A stage is run.

ghost use Rattle.std.specs.Prelude.{◌≡◌, ◌<◌, ◌≤◌, ◌^◌, length, IfOk};

use crate::rest::finish_rest;
use crate::workers::run_seats;
use host_port::Gate;
use std::alloc::{AllocError, Global};
use std::snapshot::Snapshot;
use std::thread::Threads;
use tile_machine::Phase;
use tile_table::TileTable;

/// The finished tiles of a list of tiles, in its order, made by this many workers in threads of their own.
///
/// Each worker goes over all places. It claims what nobody has claimed, tells the gate so, computes the finished tile from copies
/// of the tile and of the parts that it needs, puts it in its place and tells the gate that too. A lock that is held by another
/// is tried at most 1,000 times in a row, then the tile is put off. When all workers have ended, the calling thread finishes the
/// tiles that were put off. The answer doesn't depend on the schedule or on the gate, whose calls have to return.
///
/// Want of memory is the only other answer. A worker that meets it claims no more; the others go on, all are joined, and the
/// call answers it then. The room for the tiles at the end is taken before any worker starts.
pub fn run_phase<R: Threads + Sync, P: Phase + Sync, G: Gate>(
    rt: &R,
    alloc: Global,
    phase: &P,
    number: u8,
    tiles: Vec<P::Tile>,
    workers: u64,
    gate: &G,
) -> Result<Vec<P::Tile>, AllocError>
where
    P::Tile: Send,
    P::Part: Send,
    requires some_workers { 1 ≤ workers }
    requires few_workers { workers ≤ 64 }
    requires few { length tiles.items < 2 ^ 32 }
    requires fits { P.fits phase.now tiles.items }
    ensures { IfOk result (λ done. done.items ≡ P.finished phase.now tiles.items) }
{
    if tiles.is_empty() {
        return Ok(tiles);
    }
    let room = Vec::with_capacity(alloc, tiles.len())?;
    let places = tiles.len() as u64;
    let world = Snapshot::of(&tiles);
    let (table, seat) = TileTable::new(alloc, phase, tiles, workers)?;
    let (seat, enough) = run_seats(
        rt, alloc, phase, number, &table, seat, workers, 0, places, gate,
    );
    if !enough {
        return Err(AllocError);
    }
    let closed = table.close(seat, room);
    finish_rest(alloc, phase, closed, &world)
}
