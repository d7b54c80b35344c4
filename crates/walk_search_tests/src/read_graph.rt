//! The graph that files of tiles spell: nodes, and items that lead from one node to another.

use graph_id::GraphId;
use host_port::MemHost;
use std::alloc::{AllocError, Global};
use test_support::file_of;
use tile_bytes::{Tile, TileFault, read_tile};
use tile_records::{EdgeRec, NodeRec};

/// A node of a tile, with its GraphId.
#[derive(Clone, Copy, Debug)]
pub(crate) struct GraphNode {
    pub id: u64,
    pub osm: i64,
    pub modes: u16,
}

/// An edge, or a transition, which has no length, between nodes that are told by their numbers in the graph.
#[derive(Clone, Copy, Debug)]
pub(crate) struct Item {
    pub from: usize,
    pub to: usize,
    pub is_transition: bool,
    pub cm: usize,
    pub modes: u16,
}

/// All nodes and items of the tiles of a folder.
#[derive(Debug, Drop)]
pub(crate) struct Graph {
    pub nodes: Vec<GraphNode>,
    pub items: Vec<Item>,
}

/// An item as a tile tells it: the number of the node where it starts, and the GraphId of its end.
#[derive(Clone, Copy, Debug)]
struct Told {
    from: usize,
    end: u64,
    is_transition: bool,
    cm: usize,
    modes: u16,
}

/// What tiles tell.
#[derive(Debug, Drop)]
struct Tiles {
    nodes: Vec<GraphNode>,
    told: Vec<Told>,
}

/// The GraphId of the node of a tile with that number: bits 25 and up.
fn node_id(tile: GraphId, number: usize) -> u64 {
    tile.value()
        .saturating_add((number as u64).saturating_mul(0x200_0000))
}

/// Adds the edges of a node: so many, from that index of the tile's edges on.
fn add_edges(
    told: &mut Vec<Told>,
    from: usize,
    node: &NodeRec,
    edges: &[EdgeRec],
) -> Result<(), AllocError> {
    let first = node.edge_index as usize;
    let count = usize::from(node.edge_count);
    for edge in edges.iter().skip(first).take(count) {
        told.push(Told {
            from,
            end: edge.end.value(),
            is_transition: false,
            cm: edge.cm as usize,
            modes: edge.forward_access,
        })?;
    }
    Ok(())
}

/// Adds the transitions of a node.
fn add_transitions(
    told: &mut Vec<Told>,
    from: usize,
    node: &NodeRec,
    transitions: &[GraphId],
) -> Result<(), AllocError> {
    let first = node.transition_index as usize;
    let count = usize::from(node.transition_count);
    for to in transitions.iter().skip(first).take(count) {
        told.push(Told {
            from,
            end: to.value(),
            is_transition: true,
            cm: 0,
            modes: 0,
        })?;
    }
    Ok(())
}

/// Adds the nodes of a tile with what starts there.
fn add_tile(tiles: &mut Tiles, tile: &Tile) -> Result<(), AllocError> {
    let mut number = 0usize;
    for node in tile.nodes.as_slice() {
        let from = tiles.nodes.len();
        tiles.nodes.push(GraphNode {
            id: node_id(tile.id, number),
            osm: node.osm,
            modes: node.access,
        })?;
        add_edges(&mut tiles.told, from, node, tile.edges.as_slice())?;
        add_transitions(&mut tiles.told, from, node, tile.transitions.as_slice())?;
        number = number.saturating_add(1);
    }
    Ok(())
}

/// Adds the tile that a file spells. Whether the file spells one.
fn add_file(alloc: Global, tiles: &mut Tiles, bytes: &[u8]) -> Result<bool, AllocError> {
    match read_tile(alloc, bytes) {
        Ok(tile) => {
            add_tile(tiles, &tile)?;
            Ok(true)
        }
        Err(TileFault::Bad { .. }) => Ok(false),
        Err(TileFault::OutOfMemory) => Err(AllocError),
    }
}

/// The number of the node with this GraphId.
fn number_of(nodes: &[GraphNode], id: u64) -> Option<usize> {
    nodes.iter().position(|node| node.id == id)
}

/// Adds an item, if its end is a node of the tiles.
fn add_item(nodes: &[GraphNode], told: &Told, items: &mut Vec<Item>) -> Result<(), AllocError> {
    if let Some(to) = number_of(nodes, told.end) {
        items.push(Item {
            from: told.from,
            to,
            is_transition: told.is_transition,
            cm: told.cm,
            modes: told.modes,
        })?;
    }
    Ok(())
}

/// The graph of what tiles tell: items to nodes that aren't there are left out.
fn graph_of_tiles(alloc: Global, tiles: Tiles) -> Result<Graph, AllocError> {
    let mut items = Vec::new(alloc);
    for told in &tiles.told {
        add_item(&tiles.nodes, told, &mut items)?;
    }
    Ok(Graph {
        nodes: tiles.nodes,
        items,
    })
}

/// The graph of the files that were put; none where one of them spells no tile.
pub(crate) fn graph_of(alloc: Global, host: &MemHost) -> Result<Option<Graph>, AllocError> {
    let mut tiles = Tiles {
        nodes: Vec::new(alloc),
        told: Vec::new(alloc),
    };
    for path in host.puts.as_slice() {
        if !add_file(alloc, &mut tiles, file_of(host, path.as_str()))? {
            return Ok(None);
        }
    }
    Ok(Some(graph_of_tiles(alloc, tiles)?))
}
