//! Tiles whose rows several may read.
ghost use Rattle.std.specs.Prelude.{◌≡◌, IfOk};

use crate::tile_rows::TileRows;
use std::alloc::{AllocError, Global};
use std::marker::Model;
use std::sync::Arc;

/// A tile while it is built. Nobody changes its rows any more, so that its copies share them. Contracts see it as
/// its rows.
#[derive(Drop)]
pub struct WorkTile {
    rows: Arc<TileRows, Global>,
}

impl Model for WorkTile {
    ghost use Rattle.work_tile.specs.WorkRows.{WorkRows};
    ghost use Rattle.std.specs.Arc.{arc_value};

    ghost Value = { WorkRows };

    ghost view = { λ t. arc_value t.rows };
}

impl WorkTile {
    /// The tile of these rows.
    pub fn new(alloc: Global, rows: TileRows) -> Result<WorkTile, AllocError>
        ensures { IfOk result (λ tile. tile ≡ rows) }
    {
        match Arc::new(alloc, rows) {
            Ok(rows) => Ok(WorkTile { rows }),
            Err(_) => Err(AllocError),
        }
    }

    /// Its rows.
    pub fn rows(&self) -> &TileRows
        ensures { result.now ≡ self.now }
    {
        &self.rows
    }
}

/// An equal tile. The rows aren't copied: both tiles have the same ones, which go with the last of them.
pub fn copy_tile(tile: &WorkTile) -> Result<WorkTile, AllocError>
    ensures { IfOk result (λ copy. copy ≡ tile.now) }
{
    let rows = Arc::try_clone(&tile.rows)?;
    Ok(WorkTile { rows })
}
