//! A tile, put together.
ghost use Rattle.std.specs.Prelude.{◌≡◌, ◌<◌, length, slice_index_or, All, IfOk};
ghost use Rattle.work_tile.specs.Places.{place_numbers};
ghost use Rattle.tile_records.specs.Nodes.{NodeFits};
ghost use Rattle.tile_records.specs.Edges.{EdgeFits};
ghost use Rattle.tile_bytes.specs.Items.{IsValid};
ghost use Rattle.tile_numbers.specs.LookUps.{no_rows};
ghost use Rattle.tile_numbers.specs.Limits.{TilesCanBeNumbered};
ghost use Rattle.tile_numbers.specs.Records.{edges_of_rows};
ghost use Rattle.tile_finish.specs.Finishing.{assembled_tile};

use crate::parts::TileParts;
use graph_id::GraphId;
use osm_model::Seq;
use std::alloc::{AllocError, Global};
use tile_bytes::{Chains, Sequences, Tile};
use tile_numbers::number_tile;
use tile_records::{EdgeRec, NodeRec};
use work_tile::{Places, WorkTile};

/// Does nothing: it tells the caller that the fields of these nodes fit their bits.
fn nodes_fit(nodes: &[NodeRec])
    ensures { All NodeFits nodes.now }
{
    for node in nodes {
        node.fit();
    }
}

/// Does nothing: it tells the caller that the fields of these edges fit their bits.
fn edges_fit(edges: &[EdgeRec])
    ensures { All EdgeFits edges.now }
{
    for edge in edges {
        edge.fit();
    }
}

/// Does nothing: it tells the caller that these GraphIds are valid.
fn ids_fit(ids: &[GraphId])
    ensures { All IsValid ids.now }
{
    for id in ids {
        let _ = id.value();
    }
}

/// The tile with index `i` among tiles that rise by level and number, with these parts. Its offsets are let go of.
pub(crate) fn tile_of_parts(
    alloc: Global,
    tiles: &[WorkTile],
    places: &Places,
    i: usize,
    modes: u16,
    parts: TileParts,
) -> Result<Tile, AllocError>
    requires inside { i < length tiles.now }
    requires tiles { TilesCanBeNumbered tiles.now }
    requires places { places.now ≡ place_numbers tiles.now }
    requires offsets { length parts.offsets.items ≡ length (edges_of_rows (slice_index_or tiles.now i no_rows)) }
    ensures tile { IfOk result (λ tile. tile ≡ assembled_tile modes tiles.now (slice_index_or tiles.now i no_rows) parts.offsets.items parts.infos parts.texts) }
    ensures nodes { IfOk result (λ tile. All NodeFits tile.nodes) }
    ensures edges { IfOk result (λ tile. All EdgeFits tile.edges) }
    ensures transitions { IfOk result (λ tile. All IsValid tile.transitions) }
{
    let rows = tiles[i].rows();
    let (level, tile) = (rows.level(), rows.tile());
    let numbered = number_tile(alloc, tiles, places, i, &parts.offsets)?;
    nodes_fit(&numbered.nodes);
    edges_fit(&numbered.edges);
    ids_fit(&numbered.transitions);
    Ok(Tile {
        id: GraphId::make(level, tile, 0).unwrap(),
        modes,
        nodes: Seq::from_vec(numbered.nodes),
        edges: Seq::from_vec(numbered.edges),
        transitions: Seq::from_vec(numbered.transitions),
        chains: Chains::new(alloc),
        sequences: Sequences::new(alloc),
        infos: parts.infos,
        texts: parts.texts,
    })
}
