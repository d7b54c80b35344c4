//! The base tiles of roads.

ghost use Rattle.std.specs.Prelude.{◌≡◌, ◌<◌, ◌≤◌, ◌++◌, ◌∷◌, [], None, All, length, IfOk, OnOk, slice_index_or};
ghost use Rattle.road_pieces.specs.declared.rows.Junction.{Junction};
ghost use Rattle.edge_builder.specs.Groups.{places_of};
ghost use Rattle.edge_builder.specs.BaseRows.{crowded};
ghost use Rattle.edge_builder.specs.BaseTiles.{base_node, base_tile, tile_if_used, base_tiles_of, IsPlanned};

use crate::edges::{Plan, edge_at};
use crate::starts::LEVEL;
use std::alloc::{AllocError, Global};
use work_tile::{TileRows, WorkTile};

/// Puts the node of the junction at that place behind the nodes of a tile, with its base edges, which stand at
/// these places among the directed edges.
fn push_node(
    plan: &Plan<'_>,
    rows: &mut TileRows,
    junction: u32,
    places: &[u32],
) -> Result<(), AllocError>
    requires planned { IsPlanned plan.now.junctions.now plan.now.pieces.now plan.now.tiles.now plan.now.starts.now }
    requires there { junction < length plan.now.junctions.now }
    requires places { places.now ≡ places_of junction plan.now.starts.now }
    requires few { length places.now ≤ 127 }
    ensures { (d : Junction) → OnOk result (rows.new ≡ record rows.old { nodes = rows.old.nodes ++ base_node plan.now.junctions.now plan.now.pieces.now (slice_index_or plan.now.junctions.now junction d) ∷ [] }) }
{
    rows.push_node(plan.junctions[junction as usize])?;
    for local in 0..places.len() {
        rows.push_edge(edge_at(plan, places[local] as usize, local as u8))?;
    }
    Ok(())
}

/// The base tile of that number, whose junctions stand at these places.
fn make_tile(
    alloc: Global,
    plan: &Plan<'_>,
    tile: u32,
    here: &[u32],
) -> Result<TileRows, AllocError>
    requires planned { IsPlanned plan.now.junctions.now plan.now.pieces.now plan.now.tiles.now plan.now.starts.now }
    requires none { crowded plan.now.junctions.now plan.now.pieces.now ≡ None }
    requires here { here.now ≡ places_of tile plan.now.tiles.now }
    ensures { IfOk result (λ rows. rows ≡ base_tile plan.now.junctions.now plan.now.pieces.now tile) }
{
    let mut rows = TileRows::new(alloc, LEVEL, tile);
    let mut places = Vec::new(alloc);
    for i in 0..here.len() {
        plan.starts.find(here[i], &mut places)?;
        push_node(plan, &mut rows, here[i], &places)?;
    }
    Ok(rows)
}

/// Puts the base tile of that number behind the others, if a junction is in it.
fn add_tile(
    alloc: Global,
    plan: &Plan<'_>,
    tile: u32,
    here: &[u32],
    tiles: &mut Vec<WorkTile>,
) -> Result<(), AllocError>
    requires planned { IsPlanned plan.now.junctions.now plan.now.pieces.now plan.now.tiles.now plan.now.starts.now }
    requires none { crowded plan.now.junctions.now plan.now.pieces.now ≡ None }
    requires here { here.now ≡ places_of tile plan.now.tiles.now }
    ensures { OnOk result (tiles.new.items ≡ tiles.old.items ++ tile_if_used plan.now.junctions.now plan.now.pieces.now tile) }
{
    if !here.is_empty() {
        let rows = make_tile(alloc, plan, tile, here)?;
        let whole = WorkTile::new(alloc, rows)?;
        tiles.push(whole)?;
    }
    Ok(())
}

/// The base tiles, in order, where the number of each tile that holds a junction is below `bound`.
pub(crate) fn make_tiles(
    alloc: Global,
    plan: &Plan<'_>,
    bound: u32,
) -> Result<Vec<WorkTile>, AllocError>
    requires planned { IsPlanned plan.now.junctions.now plan.now.pieces.now plan.now.tiles.now plan.now.starts.now }
    requires none { crowded plan.now.junctions.now plan.now.pieces.now ≡ None }
    requires below { All (λ c. c < bound) plan.now.tiles.now }
    ensures { IfOk result (λ tiles. tiles.items ≡ base_tiles_of plan.now.junctions.now plan.now.pieces.now) }
{
    let mut tiles = Vec::new(alloc);
    let mut here = Vec::new(alloc);
    for tile in 0..bound {
        plan.tiles.find(tile, &mut here)?;
        add_tile(alloc, plan, tile, &here, &mut tiles)?;
    }
    Ok(tiles)
}
