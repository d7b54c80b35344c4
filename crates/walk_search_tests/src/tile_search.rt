//! Walks over the graph of tiles, item by item: edges, and transitions, which have no length.

use crate::bits::{BOUND, bit, bit_of_id, has, no_sets, put, set_of};
use crate::read_graph::Graph;
use std::alloc::{AllocError, Global};

/// The nodes of a junction, as a set of their numbers.
fn nodes_of(graph: &Graph, osm: i64) -> u64 {
    let mut set = 0u64;
    let mut number = 0usize;
    for node in &graph.nodes {
        if node.osm == osm {
            set |= bit(number);
        }
        number = number.saturating_add(1);
    }
    set
}

/// The nodes that a mode may pass.
fn open_nodes(graph: &Graph, mode: u16) -> u64 {
    let mut set = 0u64;
    let mut number = 0usize;
    for node in &graph.nodes {
        if node.modes & mode != 0 {
            set |= bit(number);
        }
        number = number.saturating_add(1);
    }
    set
}

/// These nodes, and those to which a transition leads from them.
fn over_one(graph: &Graph, set: u64) -> u64 {
    let mut found = set;
    for item in &graph.items {
        if item.is_transition && has(set, item.from) {
            found |= bit(item.to);
        }
    }
    found
}

/// Those of these nodes that are allowed, and all to which transitions lead from them through allowed ones alone.
fn over_transitions(graph: &Graph, set: u64, allowed: u64) -> u64 {
    let mut found = set & allowed;
    for _ in 0..64 {
        let more = over_one(graph, found) & allowed;
        if more == found {
            break;
        }
        found = more;
    }
    found
}

/// Goes on from these nodes along each edge that the mode may use.
fn go_on(graph: &Graph, set: u64, length: usize, mode: u16, reached: &mut Vec<u64>) {
    for item in &graph.items {
        if !item.is_transition && item.modes & mode != 0 && has(set, item.from) {
            put(reached, length.saturating_add(item.cm), bit(item.to));
        }
    }
}

/// Goes on from the nodes that edges have reached at this length, until nothing is new, since an edge may have no length. No
/// node on the way to the next edge is closed.
fn settle(graph: &Graph, open: u64, length: usize, mode: u16, reached: &mut Vec<u64>) {
    for _ in 0..64 {
        let before = set_of(reached, length);
        let set = over_transitions(graph, before, open);
        go_on(graph, set, length, mode, reached);
        if set_of(reached, length) == before {
            break;
        }
    }
}

/// The junctions of these nodes and of those to which transitions lead from them, as a set of OSM ids.
fn junctions_of(graph: &Graph, set: u64) -> u64 {
    let all = over_transitions(graph, set, u64::MAX);
    let mut found = 0u64;
    let mut number = 0usize;
    for node in &graph.nodes {
        if has(all, number) {
            found |= bit_of_id(node.osm);
        }
        number = number.saturating_add(1);
    }
    found
}

/// For each length up to the bound the junctions to which a walk of the mode leads from that one, as a set of OSM ids.
pub(crate) fn tile_ends(
    alloc: Global,
    graph: &Graph,
    start: i64,
    mode: u16,
) -> Result<Vec<u64>, AllocError> {
    let mut ends = no_sets(alloc)?;
    let mut reached = no_sets(alloc)?;
    let open = open_nodes(graph, mode);
    let first = over_transitions(graph, nodes_of(graph, start), u64::MAX);
    put(&mut ends, 0, junctions_of(graph, first));
    go_on(graph, first, 0, mode, &mut reached);
    for length in 0..=BOUND {
        if set_of(&reached, length) != 0 {
            settle(graph, open, length, mode, &mut reached);
            put(
                &mut ends,
                length,
                junctions_of(graph, set_of(&reached, length)),
            );
        }
    }
    Ok(ends)
}
