//! The base tiles of the roads of an extract.

ghost use Rattle.std.specs.Prelude.{◌≡◌, ◌≤◌, ◌⊎◌, None, Some, All, length, map, IfOk, IfErr, OnOk};
ghost use Rattle.fixed_geo.specs.Place.{IsPlace};
ghost use Rattle.tile_geometry.specs.Grid.{tile_count};
ghost use Rattle.edge_builder.specs.declared.faults.BaseFault.TheVariants.{OutOfMemory};
ghost use Rattle.edge_builder.specs.BaseRows.{junction_tile, start_places, crowded, JunctionsRise, IsJoined, AreRoads};
ghost use Rattle.edge_builder.specs.BaseTiles.{base_tiles_of};

use crate::crowds::first_crowded;
use crate::edges::Plan;
use crate::faults::BaseFault;
use crate::groups::Groups;
use crate::starts::{edge_starts, junction_tiles};
use crate::tiles::make_tiles;
use road_pieces::{Junction, Pieces, Roads};
use std::alloc::{AllocError, Global};
use work_tile::WorkTile;

/// The base tiles of roads: the tiles of level 2 that hold a junction, in order of their numbers. A tile has its
/// junctions in order of OSM id, and each junction the directed edges that start there, two for each piece, in
/// order of the pieces and forward first, with their index among them. Linear in the roads; nothing is sorted.
///
/// # Errors
///
/// `TooManyEdges` exactly where more than 127 directed edges start at a junction. `OutOfMemory` may be answered in
/// place of anything.
pub fn base_tiles(alloc: Global, roads: &Roads) -> Result<Vec<WorkTile>, BaseFault>
    requires { AreRoads roads.now.junctions roads.now.pieces }
    ensures tiles { IfOk result (λ tiles. tiles.items ≡ base_tiles_of roads.now.junctions roads.now.pieces) }
    ensures accepted { OnOk result (crowded roads.now.junctions roads.now.pieces ≡ None) }
    ensures refused { IfErr result (λ fault. (fault ≡ OutOfMemory) ⊎ (crowded roads.now.junctions roads.now.pieces ≡ Some fault)) }
{
    let junctions = roads.junctions.as_slice();
    let tiles = tile_groups(alloc, junctions)?;
    let starts = start_groups(alloc, junctions, &roads.pieces)?;
    if let Some(fault) = first_crowded(junctions, &starts) {
        return Err(fault);
    }
    let plan = Plan {
        junctions,
        pieces: &roads.pieces,
        tiles: &tiles,
        starts: &starts,
    };
    Ok(make_tiles(alloc, &plan, tile_bound())?)
}

/// How many tiles the level of base tiles has.
fn tile_bound() -> u32
    ensures { result ≡ tile_count 2 }
{
    1440 * 720
}

/// The tile of each junction, grouped.
fn tile_groups(alloc: Global, junctions: &[Junction]) -> Result<Groups, AllocError>
    requires placed { All (λ j. IsPlace j.at) junctions.now }
    requires few { length junctions.now ≤ 10_000_000 }
    ensures { IfOk result (λ tiles. tiles ≡ map junction_tile junctions.now) }
{
    let tiles = junction_tiles(alloc, junctions)?;
    Groups::new(alloc, tiles, tile_bound() as usize)
}

/// The place of the junction where each directed edge starts, grouped.
fn start_groups(
    alloc: Global,
    junctions: &[Junction],
    pieces: &Pieces,
) -> Result<Groups, AllocError>
    requires rise { JunctionsRise junctions.now }
    requires joined { All (IsJoined junctions.now) pieces.now }
    requires few_junctions { length junctions.now ≤ 10_000_000 }
    requires few_pieces { length pieces.now ≤ 4_000_000 }
    ensures { IfOk result (λ starts. starts ≡ start_places junctions.now pieces.now) }
{
    let starts = edge_starts(alloc, junctions, pieces)?;
    Groups::new(alloc, starts, junctions.len())
}
