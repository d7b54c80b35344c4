//! Whether a tile's nodes and edges have numbers.
ghost use Rattle.std.specs.Prelude.{◌≡◌, All, IfNone};
ghost use Rattle.tile_numbers.specs.Limits.{HasRoom, fullness, first_fullness};

use work_tile::{TileRows, WorkTile};

/// The most nodes, and the most edges, that GraphIds number in a tile.
pub const MOST_RECORDS: u32 = 2_097_151;

/// What a tile has too much of.
#[derive(Clone, Copy, Debug, PartialEq, Eq)]
pub enum What {
    Nodes,
    Edges,
}

/// A tile with more nodes or edges than GraphIds number: its level, its number, and how many it has.
#[derive(Clone, Copy, Debug, PartialEq, Eq)]
pub struct TileFull {
    pub level: u32,
    pub tile: u32,
    pub what: What,
    pub count: u64,
}

/// What this tile has too much of, if anything.
fn full_of(rows: &TileRows) -> Option<TileFull>
    ensures { result ≡ fullness rows.now }
{
    let nodes = rows.nodes_len() as u64;
    let edges = rows.edges_len() as u64;
    let most = u64::from(MOST_RECORDS);
    if nodes > most {
        return Some(TileFull {
            level: rows.level(),
            tile: rows.tile(),
            what: What::Nodes,
            count: nodes,
        });
    }
    if edges > most {
        return Some(TileFull {
            level: rows.level(),
            tile: rows.tile(),
            what: What::Edges,
            count: edges,
        });
    }
    None
}

/// The first of the tiles that has more than 2,097,151 nodes or edges, nodes before edges.
pub fn first_full(tiles: &[WorkTile]) -> Option<TileFull>
    ensures first { result ≡ first_fullness tiles.now }
    ensures room { IfNone result (All HasRoom tiles.now) }
{
    for tile in tiles {
        if let Some(full) = full_of(tile.rows()) {
            return Some(full);
        }
    }
    None
}
