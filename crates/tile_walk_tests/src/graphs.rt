//! Records by their GraphIds, and tiles that give no graph.

ghost use Rattle.std.specs.Prelude.{All, IfOk, OnOk};
ghost use Rattle.tile_bytes.specs.Tiles.{PassesChecks};

use crate::files::{MOTORWAY_EAST, MOTORWAY_WEST, RESIDENTIAL};
use graph_id::GraphId;
use section_grammar::push_word;
use std::alloc::{AllocError, Global};
use std::test::Fail;
use tile_bytes::{Tile, read_tile};
use tile_walks::{GraphFault, TileGraph};

/// The bytes of a file of these words.
fn bytes_of(alloc: Global, words: &[u64]) -> Result<Vec<u8>, AllocError> {
    let mut bytes = Vec::new(alloc);
    for word in words {
        push_word(&mut bytes, *word)?;
    }
    Ok(bytes)
}

/// The tile of a file of these words.
fn tile_of(alloc: Global, words: &[u64]) -> Result<Tile, AllocError>
    ensures { IfOk result (λ tile. PassesChecks tile) }
{
    let bytes = bytes_of(alloc, words)?;
    match read_tile(alloc, &bytes) {
        Ok(tile) => Ok(tile),
        Err(_) => Err(AllocError),
    }
}

/// Puts the tile of a file of these words behind the others.
fn add_tile(alloc: Global, tiles: &mut Vec<Tile>, words: &[u64]) -> Result<(), AllocError>
    requires { All PassesChecks tiles.old.items }
    ensures { OnOk result (All PassesChecks tiles.new.items) }
{
    let tile = tile_of(alloc, words)?;
    tiles.push(tile)?;
    Ok(())
}

/// The graph of the three files, given in another order than that of their numbers.
pub(crate) fn graph(alloc: Global) -> Result<TileGraph, Fail> {
    let mut tiles = Vec::new(alloc);
    add_tile(alloc, &mut tiles, &RESIDENTIAL)?;
    add_tile(alloc, &mut tiles, &MOTORWAY_EAST)?;
    add_tile(alloc, &mut tiles, &MOTORWAY_WEST)?;
    let graph = TileGraph::of_tiles(alloc, tiles).map_err(|_| "no graph")?;
    Ok(graph)
}

/// The OSM id of the node with that GraphId, and 0 where there is none.
fn osm_at(graph: &TileGraph, level: u32, tile: u32, id: u32) -> i64 {
    match GraphId::make(level, tile, id) {
        Ok(id) => match graph.node(id) {
            Some(node) => node.osm,
            None => 0,
        },
        Err(_) => 0,
    }
}

/// The end of the edge with that GraphId, and 0 where there is none.
fn end_at(graph: &TileGraph, level: u32, tile: u32, id: u32) -> u64 {
    match GraphId::make(level, tile, id) {
        Ok(id) => match graph.edge(id) {
            Some(edge) => edge.end.value(),
            None => 0,
        },
        Err(_) => 0,
    }
}

#[test]
fn nodes(rt: HostRuntime) -> Result<(), Fail> {
    let graph = graph(rt.alloc())?;
    for (level, tile, id, osm) in [
        (0, 2024, 0, 1),
        (0, 2024, 2, 3),
        (0, 2025, 0, 4),
        (2, 519_120, 0, 4),
        (2, 519_120, 1, 7),
        (0, 2024, 3, 0),
        (0, 2026, 0, 0),
        (1, 2024, 0, 0),
    ] {
        assert_eq!(rt; osm_at(&graph, level, tile, id), osm, "{level} {tile} {id}");
    }
    Ok(())
}

// A GraphId's value is its level, 8 times its tile and 2^25 times its number.
#[test]
fn edges(rt: HostRuntime) -> Result<(), Fail> {
    let graph = graph(rt.alloc())?;
    for (level, tile, id, end) in [
        (0, 2024, 4, 8 * 2025),
        (0, 2025, 1, 8 * 2025 + 0x200_0000),
        (2, 519_120, 0, 2 + 8 * 519_120 + 0x200_0000),
        (2, 519_120, 2, 0),
        (2, 2025, 0, 0),
    ] {
        assert_eq!(rt; end_at(&graph, level, tile, id), end, "{level} {tile} {id}");
    }
    Ok(())
}

// Tile 2025 of level 0 is given twice.
#[test]
fn a_tile_twice(rt: HostRuntime) -> Result<(), Fail> {
    let mut tiles = Vec::new(rt.alloc());
    add_tile(rt.alloc(), &mut tiles, &MOTORWAY_EAST)?;
    add_tile(rt.alloc(), &mut tiles, &RESIDENTIAL)?;
    add_tile(rt.alloc(), &mut tiles, &MOTORWAY_EAST)?;
    let fault = TileGraph::of_tiles(rt.alloc(), tiles).err();
    let id = GraphId::make(0, 2025, 0).map_err(|_| "no id")?;
    assert!(rt; fault == Some(GraphFault::DuplicateTile { id }));
    Ok(())
}
