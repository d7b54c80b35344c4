//! What no clause says: that the calls succeed, and how a phase is run on a plain list.

ghost use Rattle.std.specs.Prelude.{◌<◌, length, IfOk};
ghost use Rattle.tile_machine.specs.At.{At};
ghost use Rattle.tile_machine.specs.Late.{IfLate};

use phase_samples::{Fence, Post, Summand, Sums};
use std::alloc::Global;
use std::test::Fail;
use tile_machine::{PartFault, Parts, Phase, PlainParts, values_follow_marks};

/// The finished tile of a place of a plain list, through the bounds of the traits.
fn finished_tile<P: Phase>(
    alloc: Global,
    phase: &P,
    tiles: &[P::Tile],
    i: u64,
) -> Result<P::Tile, PartFault>
    requires fits { P.fits phase.now tiles.now }
    requires inside { i < length tiles.now }
    ensures done { IfOk result (λ t. At (P.finished phase.now tiles.now) i t) }
    ensures never_late { IfLate result ⊥ }
{
    let Ok(tile) = phase.copy(alloc, &tiles[i as usize]) else {
        return Err(PartFault::OutOfMemory);
    };
    let mut parts = PlainParts { phase, tiles };
    phase.rewrite(alloc, i, tile, &mut parts)
}

/// Values 1, 2 and 3 have the sum 6, also where a neighbour that is read is finished already.
#[test]
fn sums_of_three(rt: HostRuntime) -> Result<(), Fail> {
    let alloc = rt.alloc();
    let mut tiles = [1, 2, 3].map(|value| Summand { value, total: 0 });
    for i in 0..3 {
        let done = finished_tile(alloc, &Sums, &tiles, i)?;
        assert_eq!(rt; done.total, 6, "at {i}");
        assert_eq!(rt; done.value, tiles[i as usize].value);
        assert_eq!(rt; Sums.part(alloc, &done)?, done.value);
        tiles[i as usize] = done;
    }
    assert_eq!(rt;
        PlainParts {
            phase: &Sums,
            tiles: &tiles
        }
        .count(),
        3
    );
    values_follow_marks::<Sums>();
    Ok(())
}

/// Posts of heights 3, 5 and 9: the outer ones have one neighbour.
#[test]
fn three_posts(rt: HostRuntime) -> Result<(), Fail> {
    let alloc = rt.alloc();
    let mut posts = [3, 5, 9].map(|height| Post { height, beside: 0 });
    for i in 0..3 {
        let done = finished_tile(alloc, &Fence, &posts, i)?;
        assert_eq!(rt; done.beside, [5, 12, 5][i as usize]);
        posts[i as usize] = done;
    }
    Ok(())
}
