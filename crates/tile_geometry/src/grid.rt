//! The grid of tiles on the three hierarchy levels.
ghost use Rattle.std.specs.Prelude.{◌≡◌, ℕ, ◌*◌, ◌<◌, ◌≤◌, ◌↔◌, pos, neg_ℤ, ◌-ℤ◌, IsSome, IfSome};
ghost use Rattle.fixed_geo.specs.Place.{IsPlace};
ghost use Rattle.fixed_geo.specs.declared.points.Point.{Point};
ghost use Rattle.tile_geometry.specs.Grid.{tile_units, columns, rows, tile_count, row_of, column_of, grid_tile, corner, IsTile, Holds, class_level};

use fixed_geo::Point;

/// How far the poles are from the equator, in units.
const QUARTER: i64 = 900_000_000;

/// The number of the tile of a place on a level, in Valhalla's grid: row and column are its distances from the south
/// pole and from the meridian of -180 degrees by the side of a tile, rounded down. Latitude 90 goes to
/// the last row and longitude 180 to the last column. The number is below the level's count.
#[tactic(auto, unfolding(crate::specs::Grid::grid_tile))]
pub fn tile_of(level: u32, p: Point) -> u32
    requires level { level ≤ 2 }
    requires place { IsPlace p }
    ensures value { result ≡ grid_tile level p }
    ensures counted { result < tile_count level }
{
    row(level, p) * columns(level) + column(level, p)
}

/// The hierarchy level of the roads of a class: 0 for the classes 0 to 2, 1 for 3 and 4, 2 for 5 to 7.
pub fn level_of_class(class: u8) -> u32
    requires { class ≤ 7 }
    ensures { result ≡ class_level class }
{
    match class {
        0..=2 => 0,
        3..=4 => 1,
        _ => 2,
    }
}

/// The south-west corner of a tile, a place; `None` exactly where the level is above 2 or the tile
/// isn't below the level's count.
#[tactic(auto, unfolding(crate::specs::Grid::corner))]
pub fn south_west(level: u32, tile: u32) -> Option<Point>
    ensures some { IsSome result ↔ IsTile level tile }
    ensures corner { IfSome result (λ p. p ≡ corner level tile) }
    ensures place { IfSome result IsPlace }
{
    if level > 2 {
        return None;
    }
    let width = columns(level);
    let size = side(level);
    if tile >= width * rows(level) {
        return None;
    }
    Some(corner_at(tile / width * size, tile % width * size))
}

/// The tile of a place holds it: the number is below the level's count, and the corner is at or
/// below the place on both axes and less than one tile away, at most one tile at the outer edges.
pub fn tile_holds_place()
    ensures { (level : ℕ) (p : Point) → level ≤ 2 → IsPlace p → Holds level (grid_tile level p) p }
{}

/// The numbers of tiles of some places: one in the Hudson valley on each level, one on the meridian of 180 degrees, and
/// the corner at the north pole.
pub fn worked_tiles()
    ensures level_2 { grid_tile 2 (record { lat = pos 412_500_000; lon = neg_ℤ (pos 737_500_000) }) ≡ 756_425 }
    ensures level_1 { grid_tile 1 (record { lat = pos 412_500_000; lon = neg_ℤ (pos 737_500_000) }) ≡ 47_266 }
    ensures level_0 { grid_tile 0 (record { lat = pos 412_500_000; lon = neg_ℤ (pos 737_500_000) }) ≡ 2_906 }
    ensures meridian { grid_tile 2 (record { lat = pos 0; lon = pos 1_800_000_000 }) ≡ 519_839 }
    ensures pole { grid_tile 2 (record { lat = pos 900_000_000; lon = pos 1_800_000_000 }) ≡ 1_036_799 }
    ensures corner { corner 1 47_266 ≡ record { lat = pos 410_000_000; lon = neg_ℤ (pos 740_000_000) } }
{}

/// The place that is so many units north of the south pole and east of the meridian of -180 degrees.
fn corner_at(north: u32, east: u32) -> Point
    requires poles { north ≤ 1_800_000_000 }
    requires round { east ≤ 3_600_000_000 }
    ensures lat { result.lat ≡ pos north -ℤ pos 900_000_000 }
    ensures lon { result.lon ≡ pos east -ℤ pos 1_800_000_000 }
    ensures place { IsPlace result }
{
    Point {
        lat: (i64::from(north) - QUARTER) as i32,
        lon: (i64::from(east) - 2 * QUARTER) as i32,
    }
}

/// The row of a place on a level, from the south.
#[tactic(auto, unfolding(crate::specs::Grid::row_of))]
fn row(level: u32, p: Point) -> u32
    requires level { level ≤ 2 }
    requires place { IsPlace p }
    ensures value { result ≡ row_of level p }
    ensures bound { result < 720 }
{
    let north = (i64::from(p.lat) + QUARTER) as u32;
    (north / side(level)).min(rows(level) - 1)
}

/// The column of a place on a level, from the west.
#[tactic(auto, unfolding(crate::specs::Grid::column_of))]
fn column(level: u32, p: Point) -> u32
    requires level { level ≤ 2 }
    requires place { IsPlace p }
    ensures value { result ≡ column_of level p }
    ensures bound { result < 1440 }
{
    let east = (i64::from(p.lon) + 2 * QUARTER) as u32;
    (east / side(level)).min(columns(level) - 1)
}

/// The side of a tile of a level, in units.
fn side(level: u32) -> u32
    requires { level ≤ 2 }
    ensures value { result ≡ tile_units level }
    ensures positive { 0 < result }
{
    match level {
        0 => 40_000_000,
        1 => 10_000_000,
        _ => 2_500_000,
    }
}

/// How many tiles of a level stand side by side round the earth.
fn columns(level: u32) -> u32
    requires { level ≤ 2 }
    ensures value { result ≡ columns level }
    ensures low { 90 ≤ result }
    ensures high { result ≤ 1440 }
{
    match level {
        0 => 90,
        1 => 360,
        _ => 1440,
    }
}

/// How many tiles of a level stand from pole to pole.
fn rows(level: u32) -> u32
    requires { level ≤ 2 }
    ensures value { result ≡ rows level }
    ensures low { 45 ≤ result }
    ensures high { result ≤ 720 }
{
    match level {
        0 => 45,
        1 => 180,
        _ => 720,
    }
}
