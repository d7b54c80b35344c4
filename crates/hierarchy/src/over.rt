//! The tile of a level in which a tile of level 2 lies.
ghost use Rattle.std.specs.Prelude.{◌≡◌, ◌≤◌};
ghost use Rattle.tile_geometry.specs.Grid.{columns};
ghost use Rattle.hierarchy.specs.Lifted.{tiles_across, tile_over};

/// How many tiles of level 2 stand side by side in a tile of a level.
fn across(level: u32) -> u32
    ensures value { result ≡ tiles_across level }
    ensures low { 1 ≤ result }
{
    match level {
        0 => 16,
        1 => 4,
        _ => 1,
    }
}

/// How many tiles of a level stand side by side round the earth.
fn width(level: u32) -> u32
    ensures { result ≡ columns level }
{
    match level {
        0 => 90,
        1 => 360,
        _ => 1440,
    }
}

/// The tile of a level in which that tile of level 2 lies.
pub(crate) fn tile_above(level: u32, tile: u32) -> u32
    ensures { result ≡ tile_over level tile }
{
    let across = across(level);
    tile / 1440 / across * width(level) + tile % 1440 / across
}
