//! The records of a tile, read one after the other.
ghost use Rattle.std.specs.Prelude.{◌≡◌, ◌≤◌, ◌<◌, ◌+◌, ◌*◌, ◌^◌, ◌++◌, ◌∷◌, [], length, drop, List, IfOk};
ghost use Rattle.std.specs.Int.{from_bool};
ghost use Rattle.tile_records.specs.Nodes.{NodeFields};
ghost use Rattle.tile_records.specs.Edges.{EdgeFields};
ghost use Rattle.section_grammar.specs.Reads.{read_many};
ghost use Rattle.section_grammar.specs.Answers.{Gives};
ghost use Rattle.tile_bytes.specs.Items.{lies_in, node_passes, node_record_at, edge_passes, edge_record_at, edges_of_nodes, transitions_of_nodes};
ghost use Rattle.tile_bytes.specs.Chains.{named_chains};
ghost use Rattle.tile_bytes.specs.Sums.{SumsUp, above_last};

use fixed_geo::Point;
use osm_model::Seq;
use section_grammar::{SectionFault, four_words, place};
use std::alloc::Global;
use tile_geometry::{level_of_class, tile_of};
use tile_records::{EdgeRec, NodeRec};

/// A list of nodes.
pub type NodeRecs = Seq<NodeRec>;

/// A list of directed edges.
pub type EdgeRecs = Seq<EdgeRec>;

/// What a node is compared with: the counts of the nodes before it, and the OSM id of the last of them.
#[derive(Clone, Copy, Debug)]
pub(crate) struct Sums {
    pub edges: u64,
    pub transitions: u64,
    pub last: Option<i64>,
}

/// Whether a place lies in a tile of a level.
fn lies_in(level: u32, tile: u32, p: Point) -> bool
    requires { level ≤ 2 }
    ensures { result ≡ lies_in level tile p }
{
    p.is_place() && tile_of(level, p) == tile
}

/// Whether an OSM id is above the last one.
fn is_above(last: Option<i64>, osm: i64) -> bool
    ensures { result ≡ above_last last osm }
{
    match last {
        None => true,
        Some(last) => last < osm,
    }
}

/// Whether a node passes behind nodes with these sums.
fn node_passes(level: u32, tile: u32, sums: &Sums, node: &NodeRec) -> bool
    requires { level ≤ 2 }
    ensures { (before : List NodeFields) → SumsUp before sums.now → result ≡ node_passes level tile before node.now }
{
    let p = Point {
        lat: node.lat,
        lon: node.lon,
    };
    lies_in(level, tile, p)
        && u64::from(node.edge_index) == sums.edges
        && u64::from(node.transition_index) == sums.transitions
        && node.edge_count >= 1
        && node.transition_count <= 2
        && is_above(sums.last, node.osm)
}

/// A node at the front, behind nodes with these sums.
#[tactic(auto, unfolding(crate::specs::Items::record_at, crate::specs::Items::record_found))]
fn node_of(
    end: u64,
    level: u32,
    tile: u32,
    sums: &Sums,
    bytes: &[u8],
) -> Result<NodeRec, SectionFault>
    requires { level ≤ 2 }
    ensures node { (before : List NodeFields) → SumsUp before sums.now → Gives (λ n. (n, drop 32 bytes.now)) result (node_record_at level tile end before bytes.now) }
    ensures whole { IfOk result (λ _. 32 ≤ length bytes.now) }
{
    let at = place(end, bytes);
    if bytes.len() < 32 {
        return Err(SectionFault::Bad { check: 8, at });
    }
    let Some(node) = NodeRec::of_words(four_words(bytes)) else {
        return Err(SectionFault::Bad { check: 8, at });
    };
    if !node_passes(level, tile, sums, &node) {
        return Err(SectionFault::Bad { check: 8, at });
    }
    Ok(node)
}

/// The edges of a node.
fn edges_at_node(node: &NodeRec) -> u64
    ensures is { result ≡ node.now.edge_count }
    ensures small { result ≤ 255 }
{
    u64::from(node.edge_count)
}

/// The transitions of a node.
fn transitions_at_node(node: &NodeRec) -> u64
    ensures is { result ≡ node.now.transition_count }
    ensures small { result ≤ 255 }
{
    u64::from(node.transition_count)
}

/// The OSM id of a node.
fn osm_of(node: &NodeRec) -> i64
    ensures { result ≡ node.now.osm }
{
    node.osm
}

/// The sums of nodes and one more.
fn with_node(sums: &Sums, node: &NodeRec) -> Sums
    requires edges { sums.now.edges < 2 ^ 62 }
    requires transitions { sums.now.transitions < 2 ^ 62 }
    ensures sums { (before : List NodeFields) → SumsUp before sums.now → SumsUp (before ++ node.now ∷ []) result }
    ensures edges { result.edges ≤ sums.now.edges + 255 }
    ensures transitions { result.transitions ≤ sums.now.transitions + 255 }
{
    Sums {
        edges: sums.edges + edges_at_node(node),
        transitions: sums.transitions + transitions_at_node(node),
        last: Some(osm_of(node)),
    }
}

/// So many nodes, and their sums. The file, which ends at `end`, has bytes for them, so that room for them may be reserved.
pub(crate) fn nodes_of(
    alloc: Global,
    end: u64,
    level: u32,
    tile: u32,
    count: u32,
    bytes: &[u8],
) -> Result<(Vec<NodeRec>, u64, u64, &[u8]), SectionFault>
    requires level { level ≤ 2 }
    requires room { 32 * count ≤ end }
    ensures nodes { Gives (λ x. (x.0.items, x.3.now)) result (read_many (node_record_at level tile end) count [] bytes.now) }
    ensures edges { IfOk result (λ x. x.1 ≡ edges_of_nodes x.0.items) }
    ensures transitions { IfOk result (λ x. x.2 ≡ transitions_of_nodes x.0.items) }
{
    let mut nodes = Vec::with_capacity(alloc, count as usize)?;
    let mut rest = bytes;
    let mut sums = Sums {
        edges: 0,
        transitions: 0,
        last: None,
    };
    for _ in 0..count {
        let node = node_of(end, level, tile, &sums, rest)?;
        let (_, after) = rest.split_at(32);
        sums = with_node(&sums, &node);
        nodes.push(node)?;
        rest = after;
    }
    Ok((nodes, sums.edges, sums.transitions, rest))
}

/// A directed edge at the front.
#[tactic(auto, unfolding(crate::specs::Items::record_at, crate::specs::Items::record_found))]
fn edge_of(end: u64, level: u32, bytes: &[u8]) -> Result<EdgeRec, SectionFault>
    ensures edge { (before : List EdgeFields) → Gives (λ e. (e, drop 32 bytes.now)) result (edge_record_at level end before bytes.now) }
    ensures whole { IfOk result (λ _. 32 ≤ length bytes.now) }
{
    let at = place(end, bytes);
    if bytes.len() < 32 {
        return Err(SectionFault::Bad { check: 9, at });
    }
    let Some(edge) = EdgeRec::of_words(four_words(bytes)) else {
        return Err(SectionFault::Bad { check: 9, at });
    };
    if !edge_passes(level, &edge) {
        return Err(SectionFault::Bad { check: 9, at });
    }
    Ok(edge)
}

/// Whether an edge passes on a level.
fn edge_passes(level: u32, edge: &EdgeRec) -> bool
    ensures { (before : List EdgeFields) → result ≡ edge_passes level before edge.now }
{
    edge.end.level() == level
        && level_of_class(edge.class) == level
        && (edge.shortcut || edge.chain == 0)
}

/// 1 for a shortcut, else 0.
fn shortcuts_at(edge: &EdgeRec) -> u64
    ensures { result ≡ from_bool edge.now.shortcut }
{
    u64::from(edge.shortcut)
}

/// So many directed edges, and how many of them are shortcuts. The file, which ends at `end`, has bytes for them.
pub(crate) fn edges_of(
    alloc: Global,
    end: u64,
    level: u32,
    count: u32,
    bytes: &[u8],
) -> Result<(Vec<EdgeRec>, u64, &[u8]), SectionFault>
    requires room { 32 * count ≤ end }
    ensures edges { Gives (λ x. (x.0.items, x.2.now)) result (read_many (edge_record_at level end) count [] bytes.now) }
    ensures shortcuts { IfOk result (λ x. x.1 ≡ length (named_chains x.0.items)) }
{
    let mut edges = Vec::with_capacity(alloc, count as usize)?;
    let mut rest = bytes;
    let mut shortcuts: u64 = 0;
    for _ in 0..count {
        let edge = edge_of(end, level, rest)?;
        let (_, after) = rest.split_at(32);
        shortcuts += shortcuts_at(&edge);
        edges.push(edge)?;
        rest = after;
    }
    Ok((edges, shortcuts, rest))
}
