//! The tiles that the workers put off are finished, by one thread on a plain list.

ghost use Rattle.std.specs.Prelude.{◌≡◌, ◌<◌, true, length, map, slice_set, vec_len, IfOk};
ghost use Rattle.std.proofs.Math.ListN.{get_elem?};
ghost use Rattle.tile_machine.specs.At.{At};
ghost use Rattle.phase_run.specs.Inner.Rest.{TilesOf};

use std::alloc::{AllocError, Global};
use std::snapshot::Snapshot;
use tile_machine::{PartFault, Phase, PlainParts};
use tile_table::Closed;

fn flags_of<P: Phase>(alloc: Global, closed: &[Closed<P>]) -> Result<Vec<bool>, AllocError>
    ensures { IfOk result (λ done. done.items ≡ map (λ c. c.done) closed.now) }
{
    closed.iter().map(|one| one.done).collect(alloc)
}

fn tiles_of<P: Phase>(alloc: Global, closed: Vec<Closed<P>>) -> Result<Vec<P::Tile>, AllocError>
    ensures { IfOk result (λ tiles. tiles.items ≡ map (λ c. c.tile) closed.items) }
{
    closed.into_iter().map(Closed::into_tile).collect(alloc)
}

/// The finished tile of place `i`, from tiles that show the readable parts of the world's. The tile of that place is the world's.
fn finished_tile<P: Phase>(
    alloc: Global,
    phase: &P,
    tiles: &[P::Tile],
    i: u64,
    world: &Snapshot<Vec<P::Tile>>,
) -> Result<P::Tile, AllocError>
    requires place { i < length tiles.now }
    requires fits { P.fits phase.now world.now.value.items }
    requires parts { map (P.readable phase.now) tiles.now ≡ map (P.readable phase.now) world.now.value.items }
    requires here { get_elem? tiles.now i ≡ get_elem? world.now.value.items i }
    ensures { IfOk result (λ tile. At (P.finished phase.now world.now.value.items) i tile) }
{
    let tile = phase.copy(alloc, &tiles[i as usize])?;
    let mut parts = PlainParts { phase, tiles };
    match phase.rewrite(alloc, i, tile, &mut parts) {
        Ok(finished) => Ok(finished),
        Err(PartFault::OutOfMemory) => Err(AllocError),
        Err(
            PartFault::Late {
                place: _,
                holder: _,
            },
        ) => unreachable!(),
    }
}

fn put_finished<T: Drop>(tiles: &mut Vec<T>, done: &mut Vec<bool>, i: usize, tile: T)
    requires tiles { i < vec_len tiles.old }
    requires done { i < vec_len done.old }
    ensures tiles { tiles.new.items ≡ slice_set tiles.old.items i tile }
    ensures done { done.new.items ≡ slice_set done.old.items i true }
{
    tiles[i] = tile;
    done[i] = true;
}

/// The finished tiles, from those of a closed table: the ones that aren't done are finished in their order. `world` has the
/// tiles as the stage began.
pub(crate) fn finish_rest<P: Phase>(
    alloc: Global,
    phase: &P,
    closed: Vec<Closed<P>>,
    world: &Snapshot<Vec<P::Tile>>,
) -> Result<Vec<P::Tile>, AllocError>
    requires fits { P.fits phase.now world.now.value.items }
    requires closed { TilesOf world.now.value.items (P.finished phase.now world.now.value.items) closed.items }
    ensures { IfOk result (λ tiles. tiles.items ≡ P.finished phase.now world.now.value.items) }
{
    let mut done = flags_of(alloc, closed.as_slice())?;
    let mut tiles = tiles_of(alloc, closed)?;
    for i in 0..tiles.len() {
        if !done[i] {
            let tile = finished_tile(alloc, phase, tiles.as_slice(), i as u64, world)?;
            put_finished(&mut tiles, &mut done, i, tile);
        }
    }
    Ok(tiles)
}
