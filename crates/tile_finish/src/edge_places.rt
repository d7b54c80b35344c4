//! The pieces of a tile's edges.
ghost use Rattle.std.specs.Prelude.{◌≡◌, ◌++◌, map, OnOk, IfOk};
ghost use Rattle.tile_numbers.specs.Records.{edges_of_rows};
ghost use Rattle.tile_finish.specs.FinishedTiles.{piece_places};

use std::alloc::{AllocError, Global};
use work_tile::{NodeView, TileRows};

/// Puts the indexes of the pieces of a node's edges behind the others.
fn push_places(places: &mut Vec<u32>, node: &NodeView<'_>) -> Result<(), AllocError>
    ensures { OnOk result (places.new.items ≡ places.old.items ++ map (λ e. e.place) node.now.edges) }
{
    for k in 0..node.edges_len() {
        places.push(node.edge(k).place)?;
    }
    Ok(())
}

/// The index of the piece of each edge of a tile, node by node.
fn places_of_edges(alloc: Global, rows: &TileRows) -> Result<Vec<u32>, AllocError>
    ensures { IfOk result (λ places. places.items ≡ map (λ e. e.place) (edges_of_rows rows.now)) }
{
    let mut places = Vec::with_capacity(alloc, rows.edges_len())?;
    for k in 0..rows.nodes_len() {
        push_places(&mut places, &rows.node(k))?;
    }
    Ok(places)
}

/// The indexes of the pieces of a tile's edges, in order, each once.
pub(crate) fn places_of_pieces(alloc: Global, rows: &TileRows) -> Result<Vec<u32>, AllocError>
    ensures { IfOk result (λ places. places.items ≡ piece_places rows.now) }
{
    let mut places = places_of_edges(alloc, rows)?;
    places.sort_unstable();
    places.dedup();
    Ok(places)
}
