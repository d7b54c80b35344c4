//! Where the directed edges of roads start.

ghost use Rattle.std.specs.Prelude.{◌≡◌, ◌<◌, ◌≤◌, length, map, All, IfOk, slice_index_or};
ghost use Rattle.std.specs.Ordering.{int_cmp};
ghost use Rattle.fixed_geo.specs.Place.{IsPlace};
ghost use Rattle.road_pieces.specs.declared.rows.Junction.{Junction};
ghost use Rattle.edge_builder.specs.BaseRows.{junction_tile, junction_place, start_places, JunctionsRise, IsJoined};

use road_pieces::{Junction, PieceView, Pieces};
use std::alloc::{AllocError, Global};
use std::cmp::Ordering;
use tile_geometry::tile_of;

/// The level of the base tiles.
pub(crate) const LEVEL: u32 = 2;

/// The tile of each junction.
pub(crate) fn junction_tiles(alloc: Global, junctions: &[Junction]) -> Result<Vec<u32>, AllocError>
    requires { All (λ j. IsPlace j.at) junctions.now }
    ensures { IfOk result (λ tiles. tiles.items ≡ map junction_tile junctions.now) }
{
    let mut tiles = Vec::with_capacity(alloc, junctions.len())?;
    for junction in junctions {
        tiles.push(tile_of(LEVEL, junction.at))?;
    }
    Ok(tiles)
}

/// The places of the junctions where the directed edges of the pieces start, two for each piece: an edge that runs
/// backward starts where its piece ends.
pub(crate) fn edge_starts(
    alloc: Global,
    junctions: &[Junction],
    pieces: &Pieces,
) -> Result<Vec<u32>, AllocError>
    requires rise { JunctionsRise junctions.now }
    requires joined { All (IsJoined junctions.now) pieces.now }
    requires few_junctions { length junctions.now ≤ 10_000_000 }
    requires few_pieces { length pieces.now ≤ 4_000_000 }
    ensures { IfOk result (λ starts. starts.items ≡ start_places junctions.now pieces.now) }
{
    let mut starts = Vec::with_capacity(alloc, 2 * pieces.len())?;
    // A piece mostly starts where the one before it ends.
    let mut guess = 0;
    for i in 0..pieces.len() {
        let (start, end) = find_ends(junctions, &pieces.at(i), guess);
        starts.push(start)?;
        starts.push(end)?;
        guess = end as usize;
    }
    Ok(starts)
}

/// The places of the junctions where a piece starts and ends. The first is sought at `guess`, and the second behind it.
fn find_ends(junctions: &[Junction], piece: &PieceView<'_>, guess: usize) -> (u32, u32)
    requires rise { JunctionsRise junctions.now }
    requires joined { IsJoined junctions.now piece.now }
    requires few { length junctions.now ≤ 10_000_000 }
    ensures start { result.0 ≡ junction_place junctions.now piece.now.start }
    ensures end { result.1 ≡ junction_place junctions.now piece.now.end }
{
    let start_id = piece.start();
    let end_id = piece.end();
    let start = find_junction(junctions, &start_id, guess);
    let end = find_junction(junctions, &end_id, start + 1);
    (start as u32, end as u32)
}

/// The place of the junction with that id: `guess`, or else it is found by halves.
fn find_junction(junctions: &[Junction], id: &i64, guess: usize) -> usize
    requires rise { JunctionsRise junctions.now }
    requires there { junction_place junctions.now id.now < length junctions.now }
    ensures place { result ≡ junction_place junctions.now id.now }
    ensures inside { result < length junctions.now }
{
    if guess < junctions.len() && rank(junctions, guess, id).is_eq() {
        return guess;
    }
    let mut low = 0;
    let mut high = junctions.len();
    while low < high {
        let middle = low + (high - low) / 2;
        match rank(junctions, middle, id) {
            Ordering::Less => low = middle + 1,
            Ordering::Equal => return middle,
            Ordering::Greater => high = middle,
        }
    }
    low
}

/// How the id of the junction at place `i` compares with this one.
fn rank(junctions: &[Junction], i: usize, id: &i64) -> Ordering
    requires { i < length junctions.now }
    ensures { (d : Junction) → result ≡ int_cmp (slice_index_or junctions.now i d).osm id.now }
{
    junctions[i].osm.cmp(id)
}
