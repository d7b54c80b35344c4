//! The road near a place, by a grid of cells.
ghost use Rattle.std.specs.Prelude.{◌≡◌, ◌<◌, ◌≤◌, ◌+◌, ◌/◌, ◌==◌, ℕ, length, filter, sum_by, All};
ghost use Rattle.std.specs.List.{slice_index_or};
ghost use Rattle.std.specs.List.Sorted.{IsNonDecreasingBy};
ghost use Rattle.fixed_geo.specs.Place.{IsPlace};
ghost use Rattle.tile_geometry.specs.Grid.{from_south, from_west};
ghost use Rattle.enhancer.specs.declared.spots.Spot.{Spot};
ghost use Rattle.enhancer.specs.Cells.{geo_cell, near_cell, InCells};
ghost use Rattle.enhancer.specs.Density.{cut_cm, spot_cm};

use crate::density::{ENOUGH_CM, cut_sum, near_each_other};
use crate::spots::Spot;
use fixed_geo::Point;

/// How far a place is from the south pole, in units.
fn south_of(p: Point) -> u64
    ensures value { result ≡ from_south p }
    ensures below { result < 4_294_967_296 }
{
    (i64::from(p.lat) + 900_000_000).unsigned_abs()
}

/// How far a place is from the meridian of -180 degrees, in units.
fn west_of(p: Point) -> u64
    ensures value { result ≡ from_west p }
    ensures below { result < 4_294_967_296 }
{
    (i64::from(p.lon) + 1_800_000_000).unsigned_abs()
}

/// The number of the cell of a place.
#[tactic(auto, unfolding(crate::specs::Cells::geo_cell))]
pub(crate) fn cell_at(p: Point) -> u32
    ensures value { result ≡ geo_cell p }
    ensures below { result < 360_000_000 }
{
    let row = (south_of(p) / 200_000 % 20_000) as u32;
    let column = (west_of(p) / 200_000 % 18_000) as u32;
    row * 18_000 + column
}

/// The number of a cell or of one beside it.
#[tactic(auto, unfolding(crate::specs::Cells::near_cell))]
fn cell_beside(cell: u32, k: u32) -> u32
    requires cell { cell < 360_000_000 }
    requires k { k < 9 }
    ensures { result ≡ near_cell cell k }
{
    let turn = (k + 4) % 9;
    (cell / 18_000 + 19_999 + turn / 3) % 20_000 * 18_000
        + (cell % 18_000 + 17_999 + turn % 3) % 18_000
}

/// The index of the first spot whose cell isn't below this one.
fn first_in(spots: &[Spot], cell: u32) -> usize
    requires { IsNonDecreasingBy (λ (s : Spot). s.cell) spots.now }
    ensures within { result ≤ length spots.now }
    ensures below { (j : ℕ) (d : Spot) → j < result → (slice_index_or spots.now j d).cell < cell }
    ensures above { (j : ℕ) (d : Spot) → result ≤ j → j < length spots.now → cell ≤ (slice_index_or spots.now j d).cell }
{
    let mut low = 0;
    let mut high = spots.len();
    while low < high {
        let middle = low + (high - low) / 2;
        if spots[middle].cell < cell {
            low = middle + 1;
        } else {
            high = middle;
        }
    }
    low
}

/// The length at a spot is added, if it is near the place.
fn add_spot(spot: &Spot, at: Point, total: u32) -> u32
    requires { total ≤ 15_000_000 }
    ensures { result ≡ cut_cm (total + spot_cm at spot.now) }
{
    if near_each_other(spot.at, at) {
        cut_sum(total, spot.cm)
    } else {
        total
    }
}

/// The lengths at the spots of a cell that are near the place are added.
fn add_cell(spots: &[Spot], cell: u32, at: Point, total: u32) -> u32
    requires order { IsNonDecreasingBy (λ (s : Spot). s.cell) spots.now }
    requires cut { total ≤ 15_000_000 }
    ensures { result ≡ cut_cm (total + sum_by (spot_cm at) (filter (λ s. s.cell == cell) spots.now)) }
{
    if total == ENOUGH_CM {
        return total;
    }
    let mut sum = total;
    for i in first_in(spots, cell)..spots.len() {
        if sum == ENOUGH_CM {
            return sum;
        }
        let spot = spots[i];
        if spot.cell != cell {
            return sum;
        }
        sum = add_spot(&spot, at, sum);
    }
    sum
}

/// One for each 10 km of road near the place, up to 15.
pub(crate) fn density(spots: &[Spot], at: Point) -> u8
    requires { InCells spots.now }
    ensures { All (λ s. IsPlace s.at) spots.now → IsPlace at → result ≡ cut_cm (sum_by (spot_cm at) spots.now) / 1_000_000 }
{
    let cell = cell_at(at);
    let mut total = 0;
    for k in 0..9 {
        total = add_cell(spots, cell_beside(cell, k), at, total);
    }
    (total / 1_000_000) as u8
}
