//! Walks, item by item.
ghost use Rattle.std.specs.Prelude.{◌≡◌, ◌<◌, ◌≤◌, ◌+◌, ◌↔◌, ℕ, Option, IsTrue, IfSome, Some};
ghost use Rattle.std.specs.Int.{IsBitSet};
ghost use Rattle.graph_id.specs.GraphId.{id_of};
ghost use Rattle.way_tags.specs.declared.modes.TheConstants.{VEHICLES};
ghost use Rattle.tile_walks.specs.declared.items.Stand.{Stand};
ghost use Rattle.road_pieces.specs.Modes.{ShareMode};
ghost use Rattle.tile_records.specs.Nodes.{NodeFields};
ghost use Rattle.tile_walks.specs.declared.items.WalkItem.TheVariants.{Edge, Transition};
ghost use Rattle.tile_walks.specs.Keys.{key_of};
ghost use Rattle.tile_walks.specs.Records.{IsNodeOf};
ghost use Rattle.tile_walks.specs.Steps.{HasEdge, StartsAt, IsOpen, MayCome, IsAt, Step, Ends, Follow};

use crate::graph::TileGraph;
use crate::items::{Stand, WalkItem};
use crate::keys::key;
use graph_id::GraphId;
use tile_records::{EdgeRec, NodeRec};
use way_tags::VEHICLES;

/// Whether two sets of modes share one.
fn share(modes: u16, mode: u16) -> bool
    ensures { IsTrue result ↔ ShareMode modes mode }
{
    modes & mode != 0
}

/// Whether the edge with an id is one of those of a node.
fn has_edge(n: GraphId, node: &NodeRec, id: GraphId) -> bool
    ensures { IsTrue result ↔ HasEdge n node.now id }
{
    let (from, count) = (node.edge_index, u32::from(node.edge_count));
    key(n) == key(id) && from <= id.id() && id.id() < from + count
}

/// Whether an edge starts where a walk stands.
fn starts_at(graph: &TileGraph, at: Option<GraphId>, id: GraphId) -> bool
    ensures { IsTrue result ↔ StartsAt graph.now at id }
{
    match at {
        None => true,
        Some(n) => match graph.node(n) {
            Some(node) => has_edge(n, node, id),
            None => false,
        },
    }
}

/// Whether a node is open to a mode.
fn lets(node: &NodeRec, mode: u16) -> bool
    ensures { IsTrue result ↔ ShareMode node.now.access mode }
{
    share(node.access, mode)
}

/// Whether a mode may pass a node, where there is one.
fn is_open(graph: &TileGraph, mode: u16, id: GraphId) -> bool
    ensures { IsTrue result ↔ IsOpen graph.now mode id }
{
    match graph.node(id) {
        Some(node) => lets(node, mode),
        None => true,
    }
}

/// Whether a mask has the bit of a local index.
fn has_bit(mask: u8, local: u8) -> bool
    requires { local < 128 }
    ensures { IsTrue result ↔ IsBitSet mask local }
{
    u128::from(mask) & 1_u128 << local != 0
}

/// Whether an edge may come after the last one.
fn may_come(graph: &TileGraph, mode: u16, last: Option<EdgeRec>, next: &EdgeRec) -> bool
    ensures { IsTrue result ↔ MayCome graph.now VEHICLES mode last next.now }
{
    match last {
        None => true,
        Some(edge) => {
            is_open(graph, mode, edge.end)
                && (!share(VEHICLES, mode) || !has_bit(edge.mask, next.local))
        }
    }
}

/// Whether an edge is open to a mode and may come next.
fn passes(graph: &TileGraph, mode: u16, stand: Stand, id: GraphId, edge: &EdgeRec) -> bool
    ensures { IsTrue result ↔ (StartsAt graph.now stand.at id × ShareMode edge.now.forward_access mode × MayCome graph.now VEHICLES mode stand.last edge.now) }
{
    starts_at(graph, stand.at, id)
        && share(edge.forward_access, mode)
        && may_come(graph, mode, stand.last, edge)
}

/// Where a walk stands after an edge.
fn behind(edge: &EdgeRec) -> Stand
    ensures { result ≡ record { at = Some edge.now.end; last = Some edge.now } }
{
    Stand {
        at: Some(edge.end),
        last: Some(*edge),
    }
}

/// Where a walk stands after an edge, and `None` where it may not take it.
fn over_edge(graph: &TileGraph, mode: u16, stand: Stand, id: GraphId) -> Option<Stand>
    ensures found { IfSome result (λ next. Step graph.now VEHICLES mode stand (Edge id) next) }
    ensures only { (next : Stand) → Step graph.now VEHICLES mode stand (Edge id) next → result ≡ Some next }
{
    let edge = graph.edge(id)?;
    if passes(graph, mode, stand, id, edge) {
        return Some(behind(edge));
    }
    None
}

/// Whether a transition starts where a walk stands.
fn is_at(at: Option<GraphId>, from: GraphId) -> bool
    ensures { IsTrue result ↔ IsAt at from }
{
    match at {
        None => true,
        Some(n) => n.value() == from.value(),
    }
}

/// Whether there is a node with a GraphId.
fn has_node(graph: &TileGraph, id: GraphId) -> bool
    ensures { IsTrue result ↔ ((r : NodeFields) × IsNodeOf graph.now id r) }
{
    match graph.node(id) {
        Some(_) => true,
        None => false,
    }
}

/// Where a walk stands after a transition, and `None` where there is none.
fn over_transition(
    graph: &TileGraph,
    mode: u16,
    stand: Stand,
    from: GraphId,
    place: u8,
) -> Option<Stand>
    ensures found { IfSome result (λ next. Step graph.now VEHICLES mode stand (Transition from place) next) }
    ensures only { (next : Stand) → Step graph.now VEHICLES mode stand (Transition from place) next → result ≡ Some next }
{
    let to = graph.transition(from, place)?;
    if is_at(stand.at, from) && has_node(graph, to) {
        return Some(Stand {
            at: Some(to),
            last: stand.last,
        });
    }
    None
}

/// Where a walk stands after an item, and `None` where the item may not come next.
fn step(graph: &TileGraph, mode: u16, stand: Stand, item: WalkItem) -> Option<Stand>
    ensures found { IfSome result (λ next. Step graph.now VEHICLES mode stand item next) }
    ensures only { (next : Stand) → Step graph.now VEHICLES mode stand item next → result ≡ Some next }
{
    match item {
        WalkItem::Edge(id) => over_edge(graph, mode, stand, id),
        WalkItem::Transition { from, place } => over_transition(graph, mode, stand, from, place),
    }
}

/// Whether a walk may end there.
fn ends(graph: &TileGraph, at: Option<GraphId>) -> bool
    ensures { IsTrue result ↔ Ends graph.now at }
{
    match at {
        None => graph.has_nodes(),
        Some(id) => has_node(graph, id),
    }
}

/// Whether items follow each other from node to node, and a mode may take them.
pub(crate) fn follow(graph: &TileGraph, mode: u16, items: &[WalkItem]) -> bool
    ensures { IsTrue result ↔ Follow graph.now VEHICLES mode items.now }
{
    let mut stand = Stand {
        at: None,
        last: None,
    };
    for item in items {
        match step(graph, mode, stand, *item) {
            Some(next) => stand = next,
            None => return false,
        }
    }
    ends(graph, stand.at)
}
