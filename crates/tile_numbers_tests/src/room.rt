//! The most nodes that a tile may have.

use crate::worked::junction;
use std::alloc::{AllocError, Global};
use std::test::Fail;
use tile_numbers::{TileFull, What, first_full};
use work_tile::{TileRows, WorkTile};

/// A tile with so many nodes.
fn many_nodes(alloc: Global, count: u32) -> Result<WorkTile, AllocError> {
    let mut rows = TileRows::new(alloc, 2, 519_120);
    for osm in 0..count {
        rows.push_node(junction(osm, 0))?;
    }
    WorkTile::new(alloc, rows)
}

#[test]
fn most_nodes(rt: HostRuntime) -> Result<(), Fail> {
    let mut tiles = Vec::new(rt.alloc());
    tiles.push(many_nodes(rt.alloc(), 2_097_151)?)?;
    assert!(rt; first_full(&tiles).is_none());
    tiles.push(many_nodes(rt.alloc(), 2_097_152)?)?;
    assert!(rt;
        first_full(&tiles)
            == Some(TileFull {
                level: 2,
                tile: 519_120,
                what: What::Nodes,
                count: 2_097_152,
            })
    );
    Ok(())
}
