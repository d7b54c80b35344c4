//! Tiles in order of level and number.
ghost use Rattle.std.specs.Prelude.{◌≡◌, ◌<◌, length, slice_index, Some, IfOk};
ghost use Rattle.tile_walks.specs.Keys.{IsLeastDouble, doubled, ids_of, keys_of, lesser};

use crate::keys::key;
use graph_id::GraphId;
use std::alloc::{AllocError, Global};
use tile_bytes::Tile;

/// The id of the tile at a place.
fn id_at(tiles: &[Tile], i: usize) -> GraphId
    requires { i < length tiles.now }
    ensures { result ≡ slice_index (ids_of tiles.now) i }
{
    tiles[i].id
}

/// The lesser of an id and what there is so far.
fn lesser(found: Option<GraphId>, id: GraphId) -> GraphId
    ensures { result ≡ lesser found id }
{
    match found {
        Some(kept) if kept.value() <= id.value() => kept,
        _ => id,
    }
}

/// What there is so far, and the id of two neighbours with one id.
fn doubled(found: Option<GraphId>, a: GraphId, b: GraphId) -> Option<GraphId>
    ensures { result ≡ doubled found a b }
{
    if a.value() == b.value() {
        Some(lesser(found, b))
    } else {
        found
    }
}

/// The least id that two neighbours have.
pub(crate) fn least_double(tiles: &[Tile]) -> Option<GraphId>
    ensures { IsLeastDouble (ids_of tiles.now) (length tiles.now) result }
{
    let mut found = None;
    for i in 1..tiles.len() {
        found = doubled(found, id_at(tiles, i - 1), id_at(tiles, i));
    }
    found
}

/// The keys of tiles.
pub(crate) fn keys(alloc: Global, tiles: &[Tile]) -> Result<Vec<u32>, AllocError>
    ensures { IfOk result (λ keys. keys.items ≡ keys_of tiles.now) }
{
    let mut keys = Vec::new(alloc);
    for tile in tiles {
        keys.push(key(tile.id))?;
    }
    Ok(keys)
}
