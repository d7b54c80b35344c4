//! The tiles of a level.
ghost use Rattle.std.specs.Prelude.{◌≡◌, ◌≢◌, ◌<◌, ◌≤◌, ◌++◌, ℕ, map, length, All, IfOk, OnOk, slice_index_or};
ghost use Rattle.hierarchy.specs.declared.spots.Spot.{Spot};
ghost use Rattle.hierarchy.specs.Spots.{placed_of, tiles_of_nodes, IsSpot, TilesRise};

use crate::node_edges::push_lifted;
use crate::spots::{Spot, rows_at};
use std::alloc::{AllocError, Global};
use work_tile::{TileRows, WorkTile};

/// The place behind the last one from there on with the same tile.
fn run_end(spots: &[Spot], from: usize) -> usize
    requires { from < length spots.now }
    ensures low { from < result }
    ensures high { result ≤ length spots.now }
    ensures same { (k : ℕ) (d : Spot) → from ≤ k → k < result → (slice_index_or spots.now k d).tile ≡ (slice_index_or spots.now from d).tile }
    ensures other { (d : Spot) → result < length spots.now → (slice_index_or spots.now result d).tile ≢ (slice_index_or spots.now from d).tile }
{
    let tile = spots[from].tile;
    for to in from + 1..spots.len() {
        if spots[to].tile != tile {
            return to;
        }
    }
    spots.len()
}

/// The tile of that number with the nodes of these spots.
fn make_tile(
    alloc: Global,
    tiles: &[WorkTile],
    level: u32,
    tile: u32,
    spots: &[Spot],
) -> Result<TileRows, AllocError>
    requires { All (IsSpot tiles.now) spots.now }
    ensures { IfOk result (λ rows. rows ≡ record { level = level; tile = tile; nodes = map (λ s. (placed_of level tiles.now s).node) spots.now }) }
{
    let mut rows = TileRows::new(alloc, level, tile);
    for spot in spots {
        let source = rows_at(tiles, spot.source as usize);
        push_lifted(&mut rows, &source.node(spot.node as usize), level)?;
    }
    Ok(rows)
}

/// Puts the tiles of these spots behind the others.
pub(crate) fn push_tiles(
    alloc: Global,
    tiles: &[WorkTile],
    level: u32,
    spots: &[Spot],
    lifted: &mut Vec<WorkTile>,
) -> Result<(), AllocError>
    requires there { All (IsSpot tiles.now) spots.now }
    requires rise { TilesRise spots.now }
    ensures { OnOk result (lifted.new.items ≡ lifted.old.items ++ tiles_of_nodes level (map (placed_of level tiles.now) spots.now)) }
{
    let mut from = 0;
    while from < spots.len() {
        let to = run_end(spots, from);
        let rows = make_tile(alloc, tiles, level, spots[from].tile, &spots[from..to])?;
        let tile = WorkTile::new(alloc, rows)?;
        lifted.push(tile)?;
        from = to;
    }
    Ok(())
}
