//! The records of a tile.
ghost use Rattle.std.specs.Prelude.{◌≡◌, ◌≤◌, ◌<◌, ◌+◌, ◌*◌, ◌++◌, length, slice_index_or, slice_range, IfOk, OnOk};
ghost use Rattle.work_tile.specs.Places.{place_numbers};
ghost use Rattle.tile_numbers.specs.declared.room.TheConstants.{MOST_RECORDS};
ghost use Rattle.tile_numbers.specs.LookUps.{no_rows, work_rows_at};
ghost use Rattle.tile_numbers.specs.Records.{numbered_node, numbered_edge, numbered_edges, edges_of_rows, node_records_of, edge_records_of, transitions_of_rows};
ghost use Rattle.tile_numbers.specs.Progress.{AreSoFar};
ghost use Rattle.tile_numbers.specs.Limits.{IsRecordedEdge, IsRecordedNode, CanBeNumbered, TilesCanBeNumbered};

use crate::ends::{Hint, end_of};
use crate::transitions::{Hints, push_transitions};
use graph_id::GraphId;
use std::alloc::{AllocError, Global};
use tile_records::{EdgeRec, NodeRec};
use work_tile::{NodeView, Places, TileRows, WorkEdge, WorkTile};

/// The records of a tile: its nodes in order, and the edges that start at them, node by node; and the GraphIds of the
/// other nodes of their junctions, node by node.
#[derive(Debug, Drop)]
pub struct NumberedTile {
    pub nodes: Vec<NodeRec>,
    pub edges: Vec<EdgeRec>,
    pub transitions: Vec<GraphId>,
}

/// The record of a node before which so many edges and transitions stand, and which has so many transitions.
fn node_record(edges: u32, transitions: u32, others: u8, node: &NodeView<'_>) -> NodeRec
    requires edges { edges ≤ MOST_RECORDS }
    requires transitions { transitions ≤ 2 * MOST_RECORDS }
    requires others { others ≤ 2 }
    requires node { IsRecordedNode node.now }
    ensures { result ≡ numbered_node edges transitions others node.now }
{
    let at = node.at();
    NodeRec {
        osm: node.osm(),
        lat: at.lat,
        lon: at.lon,
        edge_index: edges,
        transition_index: transitions,
        access: node.access(),
        edge_count: node.edges_len() as u8,
        transition_count: others,
        density: 0,
        barrier: node.barrier(),
    }
}

/// The record of an edge of a tile.
fn edge_record(
    tiles: &[WorkTile],
    places: &Places,
    level: u32,
    tile: u32,
    edge: &WorkEdge,
    info: u32,
    hint: Hint,
) -> EdgeRec
    requires tiles { TilesCanBeNumbered tiles.now }
    requires places { places.now ≡ place_numbers tiles.now }
    requires level { level ≤ 2 }
    requires edge { IsRecordedEdge edge.now }
    ensures { result ≡ numbered_edge level tile (work_rows_at tiles.now level edge.now.end_tile) edge.now info }
{
    let end = end_of(tiles, places, level, edge, hint);
    let (mask, forward_access, reverse_access) = (
        edge.mask,
        edge.forward_access,
        edge.reverse_access,
    );
    EdgeRec {
        end: GraphId::make(level, edge.end_tile, end.node).unwrap(),
        mask,
        opposing: end.opposing,
        cm: edge.cm,
        local: edge.local,
        opposing_local: end.local,
        leaves_tile: edge.end_tile != tile,
        shortcut: false,
        not_thru: false,
        forward: edge.key.forward,
        flagged: edge.flagged,
        in_chain: false,
        forward_access,
        reverse_access,
        class: edge.class,
        name_consistency: 0,
        info,
        chain: 0,
    }
}

/// Puts the records of the edges of a node behind the others.
fn push_edges(
    edges: &mut Vec<EdgeRec>,
    tiles: &[WorkTile],
    places: &Places,
    level: u32,
    tile: u32,
    node: &NodeView<'_>,
    offsets: &[u32],
    hint: Hint,
) -> Result<(), AllocError>
    requires tiles { TilesCanBeNumbered tiles.now }
    requires places { places.now ≡ place_numbers tiles.now }
    requires level { level ≤ 2 }
    requires node { IsRecordedNode node.now }
    requires offsets { length offsets.now ≡ length node.now.edges }
    ensures { OnOk result (edges.new.items ≡ edges.old.items ++ numbered_edges tiles.now level tile node.now.edges offsets.now) }
{
    for k in 0..node.edges_len() {
        edges.push(edge_record(tiles, places, level, tile, &node.edge(k), offsets[k], hint))?;
    }
    Ok(())
}

/// The offsets from one index on and before another.
fn part_of(offsets: &[u32], from: usize, to: usize) -> &[u32]
    requires order { from ≤ to }
    requires inside { to ≤ length offsets.now }
    ensures part { result.now ≡ slice_range offsets.now from to }
    ensures len { length result.now + from ≡ to }
{
    &offsets[from..to]
}

/// The records of the node at index `k` of a tile, put behind those of the nodes before it.
fn push_records(
    tile: &mut NumberedTile,
    tiles: &[WorkTile],
    places: &Places,
    rows: &TileRows,
    offsets: &[u32],
    i: usize,
    k: usize,
    hints: &mut Hints,
) -> Result<(), AllocError>
    requires inside { k < length rows.now.nodes }
    requires tiles { TilesCanBeNumbered tiles.now }
    requires places { places.now ≡ place_numbers tiles.now }
    requires rows { CanBeNumbered rows.now }
    requires offsets { length offsets.now ≡ length (edges_of_rows rows.now) }
    requires before { AreSoFar tiles.now rows.now offsets.now k tile.old.nodes.items tile.old.edges.items tile.old.transitions.items }
    ensures { OnOk result (AreSoFar tiles.now rows.now offsets.now (k + 1) tile.new.nodes.items tile.new.edges.items tile.new.transitions.items) }
{
    let node = rows.node(k);
    let (from, shifts) = (tile.edges.len(), tile.transitions.len());
    let to = from + node.edges_len();
    push_transitions(
        &mut tile.transitions,
        tiles,
        places,
        rows.level(),
        &node,
        hints,
    )?;
    let others = tile.transitions.len() - shifts;
    tile.nodes.push(node_record(from as u32, shifts as u32, others as u8, &node))?;
    push_edges(
        &mut tile.edges,
        tiles,
        places,
        rows.level(),
        rows.tile(),
        &node,
        part_of(offsets, from, to),
        Hint { tile: i, node: k },
    )
}

/// The records of a tile that has these rows.
fn numbered(
    alloc: Global,
    tiles: &[WorkTile],
    places: &Places,
    rows: &TileRows,
    offsets: &[u32],
    i: usize,
) -> Result<NumberedTile, AllocError>
    requires tiles { TilesCanBeNumbered tiles.now }
    requires places { places.now ≡ place_numbers tiles.now }
    requires rows { CanBeNumbered rows.now }
    requires offsets { length offsets.now ≡ length (edges_of_rows rows.now) }
    ensures nodes { IfOk result (λ t. t.nodes.items ≡ node_records_of tiles.now rows.now) }
    ensures edges { IfOk result (λ t. t.edges.items ≡ edge_records_of tiles.now rows.now offsets.now) }
    ensures transitions { IfOk result (λ t. t.transitions.items ≡ transitions_of_rows tiles.now rows.now) }
{
    let mut tile = NumberedTile {
        nodes: Vec::with_capacity(alloc, rows.nodes_len())?,
        edges: Vec::with_capacity(alloc, offsets.len())?,
        transitions: Vec::new(alloc),
    };
    let nowhere = Hint { tile: 0, node: 0 };
    let mut hints = Hints {
        first: nowhere,
        second: nowhere,
        third: nowhere,
    };
    for k in 0..rows.nodes_len() {
        push_records(&mut tile, tiles, places, rows, offsets, i, k, &mut hints)?;
    }
    Ok(tile)
}

/// The records of the tile with index `i` among tiles that rise by level and number. `places` are the places of these
/// tiles, and `offsets` has for each edge of the tile, node by node, the byte offset of its piece's entry. A node is
/// found by its OSM id in the time of a binary search, an opposing edge among the edges of its node.
pub fn number_tile(
    alloc: Global,
    tiles: &[WorkTile],
    places: &Places,
    i: usize,
    offsets: &[u32],
) -> Result<NumberedTile, AllocError>
    requires inside { i < length tiles.now }
    requires tiles { TilesCanBeNumbered tiles.now }
    requires places { places.now ≡ place_numbers tiles.now }
    requires offsets { length offsets.now ≡ length (edges_of_rows (slice_index_or tiles.now i no_rows)) }
    ensures nodes { IfOk result (λ t. t.nodes.items ≡ node_records_of tiles.now (slice_index_or tiles.now i no_rows)) }
    ensures edges { IfOk result (λ t. t.edges.items ≡ edge_records_of tiles.now (slice_index_or tiles.now i no_rows) offsets.now) }
    ensures transitions { IfOk result (λ t. t.transitions.items ≡ transitions_of_rows tiles.now (slice_index_or tiles.now i no_rows)) }
{
    numbered(alloc, tiles, places, tiles[i].rows(), offsets, i)
}
