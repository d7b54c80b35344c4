//! The nodes of a tile, each with the edges that start there.
ghost use Rattle.std.specs.Prelude.{◌≡◌, ◌<◌, ◌≤◌, ◌+◌, ◌++◌, ◌∷◌, [], List, length, OnOk, OnErr, slice_index_or, drop, sum_by};
ghost use Rattle.work_tile.specs.WorkRows.{WorkNode, work_node_with, rated_node, with_edge, first_from};

use crate::edge_rows::{EdgeRows, WorkEdge};
use crate::node_rows::{NodeRow, NodeRows};
use fixed_geo::Point;
use road_pieces::Junction;
use std::alloc::{AllocError, Global};
use std::marker::Model;

/// The rows of one tile: its level, its number on that level, and its nodes with their edges. Contracts see them
/// so. A node takes 24 bytes and an edge 48.
#[derive(Debug, Drop)]
pub struct TileRows {
    level: u32,
    tile: u32,
    nodes: NodeRows,
    edges: EdgeRows,
}

impl Model for TileRows {
    ghost use Rattle.std.specs.Prelude.{length};
    ghost use Rattle.work_tile.specs.WorkRows.{WorkRows, nodes_over, FromsRise};

    ghost Value = { WorkRows };

    ghost view = { λ t. record { level = t.level; tile = t.tile; nodes = nodes_over t.edges t.nodes } };

    ghost invariant = { λ t. FromsRise t.nodes (length t.edges) };
}

/// Where the edges of the node behind index `i` begin, or else the end of all edges.
fn edges_end(nodes: &NodeRows, edges: &EdgeRows, i: usize) -> usize
    requires { i < length nodes.now }
    ensures { result ≡ first_from (drop (i + 1) nodes.now) (length edges.now) }
{
    let count = nodes.len();
    if i + 1 < count {
        nodes.at(i + 1).from as usize
    } else {
        edges.len()
    }
}

impl TileRows {
    #[tactic(auto, unfolding(crate::specs::WorkRows::nodes_over, crate::specs::WorkRows::FromsRise))]
    /// A tile without a node. Takes no memory.
    pub fn new(alloc: Global, level: u32, tile: u32) -> TileRows
        ensures { result ≡ record { level = level; tile = tile; nodes = [] } }
    {
        TileRows {
            level,
            tile,
            nodes: NodeRows::new(alloc),
            edges: EdgeRows::new(alloc),
        }
    }

    /// Puts the node of a junction after the last one, as yet without an edge. Without memory, or past 4,294,967,295
    /// edges, the tile stays as it was.
    pub fn push_node(&mut self, junction: Junction) -> Result<(), AllocError>
        ensures ok { OnOk result (self.new ≡ record self.old { nodes = self.old.nodes ++ work_node_with junction [] ∷ [] }) }
        ensures err { OnErr result (self.new ≡ self.old) }
    {
        self.push_rated(junction, 0)
    }

    /// Puts the node of a junction with this density after the last one, as `push_node` does.
    pub fn push_rated(&mut self, junction: Junction, density: u8) -> Result<(), AllocError>
        ensures ok { OnOk result (self.new ≡ record self.old { nodes = self.old.nodes ++ rated_node junction density [] ∷ [] }) }
        ensures err { OnErr result (self.new ≡ self.old) }
    {
        let from = self.edges.len();
        if from > u32::MAX as usize {
            return Err(AllocError);
        }
        self.nodes.push(NodeRow {
            junction,
            density,
            from: from as u32,
        })
    }

    /// Puts an edge behind those of the last node. Without memory the tile stays as it was.
    pub fn push_edge(&mut self, edge: WorkEdge) -> Result<(), AllocError>
        requires some { 1 ≤ length self.old.nodes }
        ensures ok { OnOk result ((front : List WorkNode) (last : WorkNode) → self.old.nodes ≡ front ++ last ∷ []
            → self.new ≡ record self.old { nodes = front ++ with_edge last edge ∷ [] }) }
        ensures err { OnErr result (self.new ≡ self.old) }
    {
        self.edges.push(edge)
    }

    /// The level of the tile.
    pub fn level(&self) -> u32
        ensures { result ≡ self.now.level }
    {
        self.level
    }

    /// The number of the tile on its level.
    pub fn tile(&self) -> u32
        ensures { result ≡ self.now.tile }
    {
        self.tile
    }

    /// The number of nodes.
    pub fn nodes_len(&self) -> usize
        ensures { result ≡ length self.now.nodes }
    {
        self.nodes.len()
    }

    /// The number of edges of all its nodes.
    pub fn edges_len(&self) -> usize
        ensures { result ≡ sum_by (λ n. length n.edges) self.now.nodes }
    {
        if self.nodes.len() == 0 {
            return 0;
        }
        self.edges.len() - self.nodes.at(0).from as usize
    }

    /// The node at index `i`.
    pub fn node(&self, i: usize) -> NodeView<'_>
        requires { i < length self.now.nodes }
        ensures { result ≡ slice_index_or self.now.nodes i result }
    {
        let row = self.nodes.at(i);
        NodeView {
            junction: row.junction,
            density: row.density,
            edges: &self.edges,
            from: row.from as usize,
            to: edges_end(&self.nodes, &self.edges, i),
        }
    }
}

/// A node, to be read. Contracts see it as that node.
#[derive(Debug, Drop)]
pub struct NodeView<'a> {
    junction: Junction,
    density: u8,
    edges: &'a EdgeRows,
    from: usize,
    to: usize,
}

impl<'a> Model for NodeView<'a> {
    ghost use Rattle.std.specs.Prelude.{◌≤◌, length, slice_range};
    ghost use Rattle.work_tile.specs.WorkRows.{WorkNode, rated_node};

    ghost Value = { WorkNode };

    ghost view = { λ v. rated_node v.junction v.density (slice_range v.edges.now v.from v.to) };

    ghost invariant = { λ v. (v.from ≤ v.to) × (v.to ≤ length v.edges.now) };
}

impl<'a> NodeView<'a> {
    /// The node without its edges and its density.
    pub fn junction(&self) -> Junction
        ensures { rated_node result self.now.density self.now.edges ≡ self.now }
    {
        self.junction
    }

    /// Its OSM id.
    pub fn osm(&self) -> i64
        ensures { result ≡ self.now.osm }
    {
        self.junction.osm
    }

    /// Its position.
    pub fn at(&self) -> Point
        ensures { result ≡ self.now.at }
    {
        self.junction.at
    }

    /// The modes that may pass.
    pub fn access(&self) -> u16
        ensures { result ≡ self.now.access }
    {
        self.junction.access
    }

    /// Whether it is a barrier.
    pub fn barrier(&self) -> bool
        ensures { result ≡ self.now.barrier }
    {
        self.junction.barrier
    }

    /// Its density, from 0 to 15; 0 where none is told yet.
    pub fn density(&self) -> u8
        ensures { result ≡ self.now.density }
    {
        self.density
    }

    /// The number of edges that start there.
    pub fn edges_len(&self) -> usize
        ensures { result ≡ length self.now.edges }
    {
        self.to - self.from
    }

    /// The edge at index `k` among those that start there.
    pub fn edge(&self, k: usize) -> WorkEdge
        requires { k < length self.now.edges }
        ensures { result ≡ slice_index_or self.now.edges k result }
    {
        let _ = self.edges.len();
        self.edges.at(self.from + k)
    }
}
