//! Rows that are put into a tile and read again, and places of tiles.
use fixed_geo::Point;
use road_pieces::{DirKey, Junction, PieceKey};
use std::alloc::{AllocError, Global};
use std::test::Fail;
use work_tile::{TileRows, WorkEdge, WorkTile, copy_tile};

/// An edge in which each number is the greatest or the least of its type.
const EXTREME: WorkEdge = WorkEdge {
    key: DirKey {
        key: PieceKey {
            way: i64::MIN,
            run: u32::MAX,
            piece: 0,
        },
        forward: true,
    },
    place: u32::MAX,
    end: -1,
    end_tile: u32::MAX,
    cm: u32::MAX,
    local: 127,
    forward_access: u16::MAX,
    reverse_access: 0,
    class: 7,
    mask: 255,
    flagged: false,
    consistency: 255,
    not_thru: true,
};

/// The junction with an id.
fn junction(osm: i64) -> Junction {
    Junction {
        osm,
        at: Point {
            lat: -900_000_000,
            lon: 1_800_000_000,
        },
        access: 79,
        barrier: true,
    }
}

/// A tile with a node of one edge, one of none and one of two.
fn three_nodes(alloc: Global) -> Result<TileRows, AllocError> {
    let mut tile = TileRows::new(alloc, 2, 782_412);
    tile.push_node(junction(-5))?;
    tile.push_edge(EXTREME)?;
    tile.push_node(junction(6))?;
    tile.push_node(junction(7))?;
    tile.push_edge(WorkEdge { cm: 1, ..EXTREME })?;
    tile.push_edge(WorkEdge { cm: 2, ..EXTREME })?;
    Ok(tile)
}

#[test]
fn rows_are_read_again(rt: HostRuntime) -> Result<(), Fail> {
    let tile = WorkTile::new(rt.alloc(), three_nodes(rt.alloc())?)?;
    let copy = copy_tile(&tile)?;
    drop(tile);
    let rows = copy.rows();
    let mut counts = [0; 3];
    for i in 0..rows.nodes_len() {
        if i < 3 {
            counts[i] = rows.node(i).edges_len();
        }
    }
    assert_eq!(rt;
        (rows.level(), rows.tile(), counts),
        (2, 782_412, [1, 0, 2])
    );
    Ok(())
}

/// The edge at a place of a node at a place, and `None` where there is none.
fn edge_at(tile: &TileRows, node: usize, edge: usize) -> Option<WorkEdge> {
    if node >= tile.nodes_len() {
        return None;
    }
    let node = tile.node(node);
    if edge >= node.edges_len() {
        return None;
    }
    Some(node.edge(edge))
}

#[test]
fn edges_are_read_again(rt: HostRuntime) -> Result<(), Fail> {
    let tile = three_nodes(rt.alloc())?;
    assert_eq!(rt; edge_at(&tile, 0, 0), Some(EXTREME));
    assert_eq!(rt; edge_at(&tile, 2, 1), Some(WorkEdge { cm: 2, ..EXTREME }));
    Ok(())
}
