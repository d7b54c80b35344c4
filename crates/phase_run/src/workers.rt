//! The workers of a table, each in a thread of its own.

ghost use Rattle.std.specs.Prelude.{◌≡◌, ◌+◌, ◌-◌, ◌<◌, ◌≤◌, true};
ghost use Rattle.std.specs.Thread.{IsSync, IsSend};
ghost use Rattle.tile_table.specs.Seats.{view};
ghost use Rattle.tile_table.specs.Stays.{IsAlone};
ghost use Rattle.phase_run.specs.Inner.Workers.{Ready, Worked, WentOver, FinishesClaims};

use crate::worker::work;
use host_port::Gate;
use std::alloc::Global;
use std::thread::{Threads, join};
use tile_machine::Phase;
use tile_table::{Seat, TileTable};

fn middle(from: u64, to: u64) -> u64 {
    from.min(to) + (to - from.min(to)) / 2
}

/// Runs as many workers as the seat has numbers. The seat is split until each worker has one number, and all are joined
/// again. The answer is the seat with all its numbers, and whether every worker had memory enough.
///
/// Each worker goes over all places, and begins at a place of its own: the first at `from`, the others at places up to `to`. So
/// they don't meet at the same tiles.
#[cycle(runs)]
pub(crate) fn run_seats<R: Threads + Sync, P: Phase + Sync, G: Gate>(
    rt: &R,
    alloc: Global,
    phase: &P,
    number: u8,
    table: &TileTable<P>,
    seat: Seat<P>,
    workers: u64,
    from: u64,
    to: u64,
    gate: &G,
) -> (Seat<P>, bool)
where
    P::Tile: Send,
    P::Part: Send,
    requires ready { Ready table.now (P.fits phase.now) (P.finished phase.now) seat }
    requires some { 1 ≤ workers }
    requires range { (view seat).end ≡ (view seat).first + workers }
    ensures worked { Worked seat result.0 }
    ensures went_over { result.1 ≡ true → WentOver (view seat) (view result.0) }
    ensures alone { result.1 ≡ true → workers ≡ 1 → IsAlone (view seat) → FinishesClaims (view seat) → FinishesClaims (view result.0) }
{
    if workers < 2 {
        return work(alloc, phase, number, table, seat, from, gate);
    }
    let half = workers / 2;
    let between = middle(from, to);
    let mut seat = seat;
    let at = seat.worker() + half;
    let upper = table.split(&mut seat, at);
    let left = move || -> (Seat<P>, bool)
        requires { IsSync R.row × IsSync P.row × IsSync G.row × IsSend P.Tile.row × IsSend P.Part.row × (1 ≤ half) × Ready table.now (P.fits phase.now) (P.finished phase.now) seat × ((view seat).end ≡ (view seat).first + half) }
        ensures { Worked seat result.0 × (result.1 ≡ true → WentOver (view seat) (view result.0)) }
    {
        run_seats(
            rt, alloc, phase, number, table, seat, half, from, between, gate,
        )
    };
    let right = move || -> (Seat<P>, bool)
        requires { IsSync R.row × IsSync P.row × IsSync G.row × IsSend P.Tile.row × IsSend P.Part.row × (half < workers) × Ready table.now (P.fits phase.now) (P.finished phase.now) upper × ((view upper).end ≡ (view upper).first + (workers - half)) }
        ensures { Worked upper result.0 × (result.1 ≡ true → WentOver (view upper) (view result.0)) }
    {
        run_seats(
            rt,
            alloc,
            phase,
            number,
            table,
            upper,
            workers - half,
            between,
            to,
            gate,
        )
    };
    let ((mut lower, low), (upper, high)) = join(rt, left, right);
    table.join(&mut lower, upper);
    (lower, low && high)
}
