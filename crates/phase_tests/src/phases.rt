//! What no clause says: that the calls succeed, that workers run at once, and what a worker meets at a held lock.

ghost use Rattle.std.specs.Prelude.{◌≡◌, ◌<◌, ◌≤◌, ◌^◌, length};

use gates::{Counts, HoldsFirst};
use host_port::{Gate, NoGate};
use phase_run::{SeatParts, run_phase};
use phase_samples::{Sums, summands};
use plain_phases::{Failing, Meeting};
use std::alloc::{AllocError, Global};
use std::test::Fail;
use std::thread::Threads;
use tile_machine::{PartFault, Parts};
use tile_table::{Claim, TileTable};

mod gates;
mod plain_phases;

/// The totals of these values, by this many workers.
fn totals<R: Threads + Sync, G: Gate>(
    rt: &R,
    alloc: Global,
    values: &[u32],
    workers: u64,
    gate: &G,
) -> Result<Vec<u64>, AllocError>
    requires some { 1 ≤ workers }
    requires few { workers ≤ 64 }
    requires values { length values.now < 2 ^ 32 }
{
    let tiles = summands(alloc, values)?;
    let done = run_phase(rt, alloc, &Sums, 1, tiles, workers, gate)?;
    done.iter().map(|one| one.total).collect(alloc)
}

#[test]
fn any_number_of_workers(rt: HostRuntime) -> Result<(), Fail> {
    for workers in [1u64, 2, 7, 64] {
        let sums = totals(&rt, rt.alloc(), &[1, 2, 3], workers, &NoGate)?;
        assert_eq!(rt; sums.as_slice(), [6, 6, 6].as_slice(), "by {workers}");
    }
    Ok(())
}

/// Each of sixty tiles is claimed once, and none is finished twice, or without a claim. One worker alone finishes all.
#[test]
fn sixty_tiles(rt: HostRuntime) -> Result<(), Fail> {
    let all = u64::MAX / 16;
    let mut values = [1u32; 60];
    values[59] = 41;
    for workers in [1u64, 7, 64] {
        let gate = Counts::new(1);
        let sums = totals(&rt, rt.alloc(), &values, workers, &gate)?;
        assert!(rt;
            sums.len() == 60 && sums.iter().all(|sum| *sum == 100),
            "by {workers}"
        );
        assert!(rt; gate.has_claimed(all) && !gate.was_misled(), "by {workers}");
        assert!(rt;
            workers > 1 || gate.finished() == all,
            "put off by one worker"
        );
    }
    Ok(())
}

#[test]
fn no_tiles(rt: HostRuntime) -> Result<(), Fail> {
    let done = run_phase(&rt, rt.alloc(), &Sums, 1, Vec::new(rt.alloc()), 2, &NoGate)?;
    assert!(rt; done.is_empty());
    Ok(())
}

/// Worker 0 holds the lock of a tile: who reads the tile's part through the seat of worker 1 is told so. After the lock was given
/// back the part is there.
#[test]
fn a_held_tile_is_late(rt: HostRuntime) -> Result<(), Fail> {
    let tiles = summands(rt.alloc(), &[1, 2, 3, 4])?;
    let (table, mut seat) = TileTable::new(rt.alloc(), &Sums, tiles, 2)?;
    let mut other = table.split(&mut seat, 1);
    let Claim::Mine = table.claim(&mut seat, 3) else {
        panic!(rt; "claimed before")
    };
    let mut parts = SeatParts::new(&Sums, &table, &mut other);
    match table.take(&mut seat, 3) {
        Ok(turn) => {
            assert_eq!(rt;
                parts.part(rt.alloc(), 3),
                Err(PartFault::Late {
                    place: 3,
                    holder: 0
                })
            );
            table.give(&mut seat, turn);
        }
        Err(busy) => panic!(rt; "held by {}", busy.holder),
    }
    assert_eq!(rt; parts.part(rt.alloc(), 3), Ok(4));
    Ok(())
}

/// The rewriting of each of two tiles holds until that of the other has begun.
#[test]
fn two_tiles_at_once(rt: HostRuntime) -> Result<(), Fail> {
    for workers in [2u64, 4] {
        let meeting = Meeting::new();
        let tiles = [7u64, 8].to_vec(rt.alloc())?;
        let done = run_phase(&rt, rt.alloc(), &meeting, 2, tiles, workers, &NoGate)?;
        assert_eq!(rt; done.as_slice(), [7, 8].as_slice());
        assert!(rt;
            !meeting.has_missed(),
            "one rewriting waited for the other in vain, by {workers}"
        );
    }
    Ok(())
}

/// The worker that claims first is held until another has finished a tile. The gate is told of no other phase and no other tile.
#[test]
fn one_worker_is_held(rt: HostRuntime) -> Result<(), Fail> {
    for workers in [2u64, 4] {
        let gate = HoldsFirst::new(1, 3);
        let sums = totals(&rt, rt.alloc(), &[1, 2, 3], workers, &gate)?;
        assert_eq!(rt; sums.as_slice(), [6, 6, 6].as_slice());
        assert!(rt;
            gate.has_held() && !gate.has_missed(),
            "no other worker finished a tile, of {workers}"
        );
        assert!(rt;
            !gate.was_misled(),
            "the gate was told of another phase or tile"
        );
    }
    Ok(())
}

/// The rewriting of one place after the other has no memory. With place 3, which isn't there, all goes well.
#[test]
fn no_memory_for_one_place(rt: HostRuntime) -> Result<(), Fail> {
    for at in 0..4u64 {
        let tiles = [7u64, 8, 9].to_vec(rt.alloc())?;
        let phase = Failing { at };
        let result = run_phase(&rt, rt.alloc(), &phase, 3, tiles, 2, &NoGate);
        assert_eq!(rt; result.is_ok(), at == 3, "at {at}");
    }
    Ok(())
}
