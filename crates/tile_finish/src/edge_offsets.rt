//! Where the entries of the pieces of a tile's edges start.
ghost use Rattle.std.specs.Prelude.{◌≡◌, ◌<◌, ◌++◌, true, length, map, slice_index_or, OnOk, IfOk};
ghost use Rattle.tile_numbers.specs.Records.{edges_of_rows};
ghost use Rattle.tile_finish.specs.Finishing.{start_at_place, AreStarts};

use std::alloc::{AllocError, Global};
use work_tile::{NodeView, TileRows};

/// Whether this place stands at that index.
fn stands_at(places: &[u32], i: usize, place: u32) -> bool
    ensures inside { result ≡ true → i < length places.now }
    ensures there { result ≡ true → slice_index_or places.now i 0 ≡ place }
{
    i < places.len() && places[i] == place
}

/// Where the entry of the piece with this index starts, and 0 where it isn't among these. It is looked for at the hint and
/// behind it first, since a road's pieces follow each other; the hint becomes the index where it is found.
fn offset_of(places: &[u32], starts: &[u64], place: u32, hint: &mut usize) -> u32
    requires { AreStarts places.now starts.now }
    ensures { result ≡ start_at_place places.now starts.now place }
{
    let last = *hint;
    if stands_at(places, last, place) {
        return starts[last] as u32;
    }
    let next = last.saturating_add(1);
    if stands_at(places, next, place) {
        *hint = next;
        return starts[next] as u32;
    }
    match places.binary_search(&place) {
        Ok(i) => {
            *hint = i;
            starts[i] as u32
        }
        Err(_) => 0,
    }
}

/// Puts the offsets of a node's edges behind the others.
fn push_offsets(
    offsets: &mut Vec<u32>,
    places: &[u32],
    starts: &[u64],
    node: &NodeView<'_>,
    hint: &mut usize,
) -> Result<(), AllocError>
    requires { AreStarts places.now starts.now }
    ensures { OnOk result (offsets.new.items ≡ offsets.old.items ++ map (λ e. start_at_place places.now starts.now e.place) node.now.edges) }
{
    for k in 0..node.edges_len() {
        offsets.push(offset_of(places, starts, node.edge(k).place, hint))?;
    }
    Ok(())
}

/// For each edge of a tile, node by node, where the entry of its piece starts: the entry of the piece with the index
/// `places[k]` starts at `starts[k]`.
pub(crate) fn offsets_of_edges(
    alloc: Global,
    rows: &TileRows,
    places: &[u32],
    starts: &[u64],
) -> Result<Vec<u32>, AllocError>
    requires { AreStarts places.now starts.now }
    ensures { IfOk result (λ offsets. offsets.items ≡ map (λ e. start_at_place places.now starts.now e.place) (edges_of_rows rows.now)) }
{
    let mut offsets = Vec::with_capacity(alloc, rows.edges_len())?;
    let mut hint = 0;
    for k in 0..rows.nodes_len() {
        push_offsets(&mut offsets, places, starts, &rows.node(k), &mut hint)?;
    }
    Ok(offsets)
}
