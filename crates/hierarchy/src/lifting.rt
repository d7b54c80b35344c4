//! Tiles of level 2 on their levels.
ghost use Rattle.std.specs.Prelude.{◌≡◌, ◌++◌, IfOk, OnOk};
ghost use Rattle.hierarchy.specs.Lifted.{tiles_of_level, lifted_tiles};
ghost use Rattle.hierarchy.specs.Spots.{OwnNodes};

use crate::spots::gather;
use crate::tiles::push_tiles;
use std::alloc::{AllocError, Global};
use work_tile::WorkTile;

/// Puts the tiles of a level behind the others.
fn lift_level(
    alloc: Global,
    tiles: &[WorkTile],
    level: u32,
    lifted: &mut Vec<WorkTile>,
) -> Result<(), AllocError>
    requires { OwnNodes tiles.now }
    ensures { OnOk result (lifted.new.items ≡ lifted.old.items ++ tiles_of_level tiles.now level) }
{
    let mut spots = gather(alloc, tiles, level)?;
    spots.sort_unstable_by_key(|spot| (spot.tile, spot.osm));
    push_tiles(alloc, tiles, level, &spots, lifted)
}

/// The tiles of the levels 0, 1 and 2, in order of level and number: of tiles of level 2, on each level the nodes where an
/// edge of that level starts, in order of OSM id, with these edges, whose ends lie in tiles of that level. Linear in the
/// edges, but for a sort of the nodes of each level.
pub fn lift(alloc: Global, tiles: Vec<WorkTile>) -> Result<Vec<WorkTile>, AllocError>
    requires { OwnNodes tiles.items }
    ensures { IfOk result (λ lifted. lifted.items ≡ lifted_tiles tiles.items) }
{
    let mut lifted = Vec::new(alloc);
    lift_level(alloc, &tiles, 0, &mut lifted)?;
    lift_level(alloc, &tiles, 1, &mut lifted)?;
    lift_level(alloc, &tiles, 2, &mut lifted)?;
    Ok(lifted)
}
