//! Where the nodes of a level stand.
ghost use Rattle.std.specs.Prelude.{◌≡◌, ◌<◌, ◌∷◌, [], filter, length, nat_lt, IfOk, OnOk, slice_index_or};
ghost use Rattle.hierarchy.specs.Lifted.{is_on_level};
ghost use Rattle.hierarchy.specs.Spots.{placed_from, no_node, source_at, node_at, spot_at, AddsSpots, AreSpots};

use crate::node_edges::has_edge;
use crate::over::tile_above;
use std::alloc::{AllocError, Global};
use work_tile::{TileRows, WorkTile};

/// A node of a level: the tile of that level in which it lies, its OSM id, and the place of its tile among those of
/// level 2 and its own in there.
#[derive(Clone, Copy, Debug)]
pub(crate) struct Spot {
    pub tile: u32,
    pub osm: i64,
    pub source: u32,
    pub node: u32,
}

/// The number of a place. No more than 4,294,967,295 tiles or nodes can be told.
fn place_of(i: usize) -> Result<u32, AllocError>
    ensures { IfOk result (λ place. place ≡ i) }
{
    if i > u32::MAX as usize {
        return Err(AllocError);
    }
    Ok(i as u32)
}

/// The rows of a tile.
pub(crate) fn rows_at(tiles: &[WorkTile], source: usize) -> &TileRows
    requires { source < length tiles.now }
    ensures { result.now ≡ source_at tiles.now source }
{
    tiles[source].rows()
}

/// Whether an edge of the level starts at the node at that place.
fn starts_edge(rows: &TileRows, level: u32, node: usize) -> bool
    requires { node < length rows.now.nodes }
    ensures { result ≡ nat_lt 0 (length (filter (is_on_level level) (slice_index_or rows.now.nodes node no_node).edges)) }
{
    has_edge(&rows.node(node), level)
}

/// The spot of the node at that place.
fn spot_of(rows: &TileRows, level: u32, source: usize, node: usize) -> Result<Spot, AllocError>
    requires { node < length rows.now.nodes }
    ensures { IfOk result (λ spot. spot ≡ spot_at level rows.now source node) }
{
    let view = rows.node(node);
    let source = place_of(source)?;
    let node = place_of(node)?;
    Ok(Spot {
        tile: tile_above(level, rows.tile()),
        osm: view.osm(),
        source,
        node,
    })
}

/// Puts the spot of a node behind the others, if an edge of the level starts there.
fn gather_node(
    tiles: &[WorkTile],
    level: u32,
    source: usize,
    node: usize,
    spots: &mut Vec<Spot>,
) -> Result<(), AllocError>
    requires source { source < length tiles.now }
    requires node { node < length (source_at tiles.now source).nodes }
    ensures { OnOk result (AddsSpots level tiles.now spots.old.items spots.new.items (placed_from level (source_at tiles.now source).tile (node_at tiles.now source node ∷ []))) }
{
    let rows = rows_at(tiles, source);
    if starts_edge(rows, level, node) {
        let spot = spot_of(rows, level, source, node)?;
        spots.push(spot)?;
    }
    Ok(())
}

/// Puts the spots of the nodes of a tile behind the others.
fn gather_tile(
    tiles: &[WorkTile],
    level: u32,
    source: usize,
    spots: &mut Vec<Spot>,
) -> Result<(), AllocError>
    requires { source < length tiles.now }
    ensures { OnOk result (AddsSpots level tiles.now spots.old.items spots.new.items (placed_from level (source_at tiles.now source).tile (source_at tiles.now source).nodes)) }
{
    let count = rows_at(tiles, source).nodes_len();
    for node in 0..count {
        gather_node(tiles, level, source, node, spots)?;
    }
    Ok(())
}

/// The spots of all nodes where an edge of the level starts, in order of their tiles of level 2.
pub(crate) fn gather(alloc: Global, tiles: &[WorkTile], level: u32) -> Result<Vec<Spot>, AllocError>
    ensures { IfOk result (λ spots. AreSpots level tiles.now spots.items) }
{
    let mut spots = Vec::new(alloc);
    for source in 0..tiles.len() {
        gather_tile(tiles, level, source, &mut spots)?;
    }
    Ok(spots)
}
