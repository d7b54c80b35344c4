//! Where an edge ends, and which edge leads back there.
ghost use Rattle.std.specs.Prelude.{◌≡◌, ◌≤◌, ◌<◌, length, slice_index_or, unwrap_or, IfSome, IfNone};
ghost use Rattle.std.specs.Ordering.{int_cmp};
ghost use Rattle.osm_model.specs.Extract.{IdsRise};
ghost use Rattle.std.specs.List.{position, find};
ghost use Rattle.std.specs.Option.{option_map};
ghost use Rattle.work_tile.specs.WorkRows.{WorkNode};
ghost use Rattle.work_tile.specs.Places.{place_numbers};
ghost use Rattle.tile_numbers.specs.declared.room.TheConstants.{MOST_RECORDS};
ghost use Rattle.tile_numbers.specs.LookUps.{no_rows, work_rows_at, node_index, runs_back, opposing_index, opposing_local_index};
ghost use Rattle.tile_numbers.specs.Progress.{IsFoundTile};
ghost use Rattle.tile_numbers.specs.Limits.{CanBeNumbered, TilesCanBeNumbered};

use road_pieces::DirKey;
use std::cmp::Ordering;
use work_tile::{NodeView, Places, TileRows, WorkEdge, WorkTile};

/// The index of the node where an edge ends, and the index and the local index of the opposing edge there.
#[derive(Clone, Copy, Debug)]
pub(crate) struct End {
    pub node: u32,
    pub opposing: u8,
    pub local: u8,
}

/// How the OSM id of the node at index `i` stands to `osm`.
fn order_at(rows: &TileRows, i: usize, osm: &i64) -> Ordering
    requires { i < length rows.now.nodes }
    ensures { (d : WorkNode) → result ≡ int_cmp (slice_index_or rows.now.nodes i d).osm osm.now }
{
    rows.node(i).osm().cmp(osm)
}

/// So near the hint a search looks, before it goes on by halves.
const NEAR: usize = 16;

/// The place at which a search goes on that is left with those from `low` on and before `high`, of so many: first at the
/// hint, then a little away from it in steps that double, and else in the middle.
fn next_place(low: usize, high: usize, count: usize, hint: usize) -> usize
    requires some { low < high }
    ensures from { low ≤ result }
    ensures before { result < high }
{
    if low <= hint && hint < high {
        return hint;
    }
    if high == count && hint < low && low - hint <= NEAR && low - hint <= high - low {
        return low + (low - hint - 1);
    }
    if low == 0 && high <= hint && hint - high < NEAR && hint - high < high {
        return high - 1 - (hint - high);
    }
    low + (high - low) / 2
}

/// The index of a junction's node, sought from near the hint on; where there is none, the number of nodes. The hint becomes
/// the place where the search ended.
pub(crate) fn node_place(rows: &TileRows, osm: &i64, hint: &mut usize) -> usize
    requires { IdsRise (λ (n : WorkNode). n.osm) rows.now.nodes }
    ensures is { result ≡ node_index rows.now osm.now }
    ensures within { result ≤ length rows.now.nodes }
{
    let first = *hint;
    let mut low = 0;
    let mut high = rows.nodes_len();
    while low < high {
        let middle = next_place(low, high, rows.nodes_len(), first);
        match order_at(rows, middle, osm) {
            Ordering::Less => low = middle + 1,
            Ordering::Equal => {
                *hint = middle;
                return middle;
            }
            Ordering::Greater => high = middle,
        }
    }
    *hint = low;
    rows.nodes_len()
}

/// Whether an edge is the same piece in the other direction.
fn runs_back(key: DirKey, edge: &WorkEdge) -> bool
    ensures { result ≡ runs_back key edge.now }
{
    let other = edge.key;
    key.key.way == other.key.way
        && key.key.run == other.key.run
        && key.key.piece == other.key.piece
        && if key.forward {
            !other.forward
        } else {
            other.forward
        }
}

/// The index of the edge at a node that is the same piece in the other direction, and its local index; 0 and 0 where
/// there is none.
fn opposing_at(node: &NodeView<'_>, key: DirKey) -> (usize, u8)
    ensures index { result.0 ≡ unwrap_or (position (runs_back key) node.now.edges) 0 }
    ensures local { result.1 ≡ unwrap_or (option_map (λ f. f.local) (find (runs_back key) node.now.edges)) 0 }
{
    for k in 0..node.edges_len() {
        let edge = node.edge(k);
        if runs_back(key, &edge) {
            return (k, edge.local);
        }
    }
    (0, 0)
}

/// The end of an edge in the tile that has it, sought from near the hint on.
fn end_in(rows: &TileRows, edge: &WorkEdge, hint: usize) -> End
    requires { CanBeNumbered rows.now }
    ensures node { result.node ≡ node_index rows.now edge.now.end }
    ensures opposing { result.opposing ≡ opposing_index rows.now edge.now }
    ensures local { result.local ≡ opposing_local_index rows.now edge.now }
    ensures small_node { result.node ≤ MOST_RECORDS }
    ensures small_opposing { result.opposing ≤ 127 }
    ensures small_local { result.local ≤ 127 }
{
    let mut near = hint;
    let place = node_place(rows, &edge.end, &mut near);
    let node = place as u32;
    if place == rows.nodes_len() {
        return End {
            node,
            opposing: 0,
            local: 0,
        };
    }
    let (opposing, local) = opposing_at(&rows.node(place), edge.key);
    End {
        node,
        opposing: opposing as u8,
        local,
    }
}

/// Where to look first: at the tile and at the node with these indexes. Any two may be given.
#[derive(Clone, Copy, Debug)]
pub(crate) struct Hint {
    pub tile: usize,
    pub node: usize,
}

/// The index of a level's tile, and `None` where it isn't among the tiles. The tile with the index `hint` is looked at
/// first.
pub(crate) fn tile_place(
    tiles: &[WorkTile],
    places: &Places,
    level: u32,
    tile: u32,
    hint: usize,
) -> Option<usize>
    requires tiles { TilesCanBeNumbered tiles.now }
    requires places { places.now ≡ place_numbers tiles.now }
    ensures some { IfSome result (λ i. IsFoundTile tiles.now level tile i) }
    ensures none { IfNone result (work_rows_at tiles.now level tile ≡ no_rows) }
{
    if hint < tiles.len() {
        let rows = tiles[hint].rows();
        if rows.level() == level && rows.tile() == tile {
            return Some(hint);
        }
    }
    match places.place(level, tile) {
        Some(place) => Some(place as usize),
        None => None,
    }
}

/// The end of an edge of a tile of this level, sought from near the hint on.
pub(crate) fn end_of(
    tiles: &[WorkTile],
    places: &Places,
    level: u32,
    edge: &WorkEdge,
    hint: Hint,
) -> End
    requires tiles { TilesCanBeNumbered tiles.now }
    requires places { places.now ≡ place_numbers tiles.now }
    ensures node { result.node ≡ node_index (work_rows_at tiles.now level edge.now.end_tile) edge.now.end }
    ensures opposing { result.opposing ≡ opposing_index (work_rows_at tiles.now level edge.now.end_tile) edge.now }
    ensures local { result.local ≡ opposing_local_index (work_rows_at tiles.now level edge.now.end_tile) edge.now }
    ensures small_node { result.node ≤ MOST_RECORDS }
    ensures small_opposing { result.opposing ≤ 127 }
    ensures small_local { result.local ≤ 127 }
{
    match tile_place(tiles, places, level, edge.end_tile, hint.tile) {
        Some(place) => end_in(tiles[place].rows(), edge, hint.node),
        None => End {
            node: 0,
            opposing: 0,
            local: 0,
        },
    }
}
