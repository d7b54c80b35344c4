//! The tiles that are kept.
ghost use Rattle.std.specs.Prelude.{◌≡◌, ◌++◌, ◌∷◌, [], IfOk, OnOk, IsTrue};
ghost use Rattle.access_filter.specs.Kept.{kept_rows, kept_tiles};

use crate::node_edges::{is_kept_node, keep_node};
use std::alloc::{AllocError, Global};
use work_tile::{TileRows, WorkTile};

/// Drops the edges of pieces that none of the asked modes may use in any direction, then the nodes where no edge
/// starts, and the tiles without a node. A bit of `modes` is a mode, as in the accesses of an edge. What stays has
/// all its other fields as they were. A tile of which nothing is dropped stays as it is, and takes no memory anew; each
/// other one is let go once its kept rows stand.
pub fn keep(alloc: Global, tiles: Vec<WorkTile>, modes: u16) -> Result<Vec<WorkTile>, AllocError>
    ensures { IfOk result (λ kept. kept.items ≡ kept_tiles modes tiles.items) }
{
    let mut kept = Vec::new(alloc);
    for tile in tiles {
        keep_tile(alloc, &mut kept, tile, modes)?;
    }
    Ok(kept)
}

/// Puts what is kept of a tile behind the others, if a node of it is kept. A tile of which nothing is dropped is put
/// there as it is.
fn keep_tile(
    alloc: Global,
    kept: &mut Vec<WorkTile>,
    tile: WorkTile,
    modes: u16,
) -> Result<(), AllocError>
    ensures { OnOk result (kept.new.items ≡ kept.old.items ++ kept_tiles modes (tile ∷ [])) }
{
    if is_kept_whole(tile.rows(), modes) {
        kept.push(tile)?;
        return Ok(());
    }
    keep_part(alloc, kept, &tile, modes)
}

/// Whether a tile has a node, and nothing of it is dropped.
fn is_kept_whole(rows: &TileRows, modes: u16) -> bool
    ensures { IsTrue result → kept_tiles modes (rows.now ∷ []) ≡ rows.now ∷ [] }
{
    for i in 0..rows.nodes_len() {
        if !is_kept_node(&rows.node(i), modes) {
            return false;
        }
    }
    rows.nodes_len() > 0
}

/// Puts what is kept of a tile behind the others, if a node of it is kept, as a tile of its own.
fn keep_part(
    alloc: Global,
    kept: &mut Vec<WorkTile>,
    tile: &WorkTile,
    modes: u16,
) -> Result<(), AllocError>
    ensures { OnOk result (kept.new.items ≡ kept.old.items ++ kept_tiles modes (tile.now ∷ [])) }
{
    let rows = rows_kept(alloc, tile.rows(), modes)?;
    if rows.nodes_len() == 0 {
        return Ok(());
    }
    let tile = WorkTile::new(alloc, rows)?;
    kept.push(tile)?;
    Ok(())
}

/// The rows of a tile that are kept.
fn rows_kept(alloc: Global, rows: &TileRows, modes: u16) -> Result<TileRows, AllocError>
    ensures { IfOk result (λ kept. kept ≡ kept_rows modes rows.now) }
{
    let mut kept = TileRows::new(alloc, rows.level(), rows.tile());
    for i in 0..rows.nodes_len() {
        keep_node(&mut kept, &rows.node(i), modes)?;
    }
    Ok(kept)
}
