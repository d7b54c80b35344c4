//! Worked rows of what is kept.
use access_filter::keep;
use fixed_geo::Point;
use road_pieces::{DirKey, Junction, PieceKey};
use std::alloc::{AllocError, Global};
use std::test::Fail;
use work_tile::{TileRows, WorkEdge, WorkTile};

/// The junction with an id.
fn junction(osm: i64) -> Junction {
    Junction {
        osm,
        at: Point { lat: 0, lon: 0 },
        access: 79,
        barrier: false,
    }
}

/// An edge of a way, with its accesses.
fn edge(way: i64, forward_access: u16, reverse_access: u16) -> WorkEdge {
    WorkEdge {
        key: DirKey {
            key: PieceKey {
                way,
                run: 0,
                piece: 0,
            },
            forward: true,
        },
        place: 0,
        end: 1,
        end_tile: 5,
        cm: 100,
        local: 0,
        forward_access,
        reverse_access,
        class: 6,
        mask: 0,
        flagged: false,
        consistency: 0,
        not_thru: false,
    }
}

/// Tile 5 has node 10 with ways 1 and 2, node 20 with way 3. Tile 6 has node 30 with way 4.
fn two_tiles(alloc: Global) -> Result<Vec<WorkTile>, AllocError> {
    let mut first = TileRows::new(alloc, 2, 5);
    first.push_node(junction(10))?;
    first.push_edge(edge(1, 0, 1))?;
    first.push_edge(edge(2, 2, 2))?;
    first.push_node(junction(20))?;
    first.push_edge(edge(3, 8, 0))?;
    let mut second = TileRows::new(alloc, 2, 6);
    second.push_node(junction(30))?;
    second.push_edge(edge(4, 2, 64))?;
    let mut tiles = Vec::new(alloc);
    tiles.push(WorkTile::new(alloc, first)?)?;
    tiles.push(WorkTile::new(alloc, second)?)?;
    Ok(tiles)
}

/// The way of an edge of a node of a tile, and `None` where there is none.
fn way_at(tiles: &[WorkTile], tile: usize, node: usize, edge: usize) -> Option<i64> {
    if tile >= tiles.len() {
        return None;
    }
    let rows = tiles[tile].rows();
    if node >= rows.nodes_len() {
        return None;
    }
    let node = rows.node(node);
    if edge >= node.edges_len() {
        return None;
    }
    Some(node.edge(edge).key.key.way)
}

/// The ways of the first two edges of the first two nodes of the first two tiles.
fn ways(tiles: &[WorkTile]) -> [Option<i64>; 8] {
    [
        way_at(tiles, 0, 0, 0),
        way_at(tiles, 0, 0, 1),
        way_at(tiles, 0, 1, 0),
        way_at(tiles, 0, 1, 1),
        way_at(tiles, 1, 0, 0),
        way_at(tiles, 1, 0, 1),
        way_at(tiles, 1, 1, 0),
        way_at(tiles, 1, 1, 1),
    ]
}

/// What is kept for some modes.
fn kept_ways(alloc: Global, modes: u16) -> Result<[Option<i64>; 8], AllocError> {
    let kept = keep(alloc, two_tiles(alloc)?, modes)?;
    Ok(ways(kept.as_slice()))
}

#[test]
fn all_modes_keep_all(rt: HostRuntime) -> Result<(), Fail> {
    let all = [Some(1), Some(2), Some(3), None, Some(4), None, None, None];
    assert_eq!(rt; kept_ways(rt.alloc(), 79)?, all);
    Ok(())
}

#[test]
fn one_direction_keeps_a_piece(rt: HostRuntime) -> Result<(), Fail> {
    let first = [Some(1), None, None, None, None, None, None, None];
    assert_eq!(rt; kept_ways(rt.alloc(), 1)?, first);
    Ok(())
}

#[test]
fn a_tile_goes(rt: HostRuntime) -> Result<(), Fail> {
    let truck = [Some(3), None, None, None, None, None, None, None];
    assert_eq!(rt; kept_ways(rt.alloc(), 8)?, truck);
    Ok(())
}

#[test]
fn the_first_tile_goes(rt: HostRuntime) -> Result<(), Fail> {
    let bus = [Some(4), None, None, None, None, None, None, None];
    assert_eq!(rt; kept_ways(rt.alloc(), 64)?, bus);
    Ok(())
}
