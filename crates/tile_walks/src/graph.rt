//! Tiles, whose records are found by their GraphIds.
ghost use Rattle.std.specs.Prelude.{◌≡◌, ◌≢◌, ◌≤◌, ◌↔◌, ℕ, length, All, IsTrue, IfSome, Some, IfOk, IfErr, IsPermutation};
ghost use Rattle.std.specs.Option.{option_copied};
ghost use Rattle.std.specs.List.Sorted.{IsSortedByKey};
ghost use Rattle.std.specs.Ordering.{nat_cmp};
ghost use Rattle.tile_records.specs.Nodes.{NodeFields};
ghost use Rattle.tile_records.specs.Edges.{EdgeFields};
ghost use Rattle.tile_bytes.specs.Tiles.{PassesChecks};
ghost use Rattle.tile_walks.specs.Keys.{IsGraphFault, Rise, key_of, keys_of, tiles_with};
ghost use Rattle.std.specs.List.{Any};
ghost use Rattle.tile_walks.specs.Records.{IsNodeOf, IsEdgeOf};
ghost use Rattle.tile_walks.specs.Steps.{IsTransitionOf, transition_in};
ghost use Rattle.tile_walks.specs.FileTiles.{file_graph};
ghost use Rattle.tile_walks.specs.WalkItems.{IsWalkOf};
ghost use Rattle.tile_walks.specs.Forbidden.{TilePermits};
ghost use Rattle.way_tags.specs.declared.modes.TheConstants.{VEHICLES};

use crate::forbidden::tile_permits;
use crate::items::WalkItem;
use crate::keys::{key, place_of};
use crate::laws::walks_follow;
use crate::order::{keys, least_double};
use crate::steps::follow;
use graph_id::GraphId;
use std::alloc::Global;
use std::marker::Model;
use tile_bytes::Tile;
use tile_records::{EdgeRec, NodeRec};

/// Why tiles give no graph.
#[derive(Clone, Copy, Debug, PartialEq, Eq)]
pub enum GraphFault {
    /// Two tiles have this id; it is the least such.
    DuplicateTile { id: GraphId },
    /// Memory was short.
    OutOfMemory,
}

/// Tiles in order of level and number, each of which passes the checks of a tile file. Contracts see the list of them.
/// It takes 4 bytes a tile beside them.
#[derive(Debug, Drop)]
pub struct TileGraph {
    keys: Vec<u32>,
    tiles: Vec<Tile>,
}

impl Model for TileGraph {
    ghost use Rattle.std.specs.Prelude.{◌≡◌, List, All};
    ghost use Rattle.tile_bytes.specs.declared.tile.Tile.{Tile};
    ghost use Rattle.tile_bytes.specs.Tiles.{PassesChecks};
    ghost use Rattle.tile_walks.specs.Keys.{keys_of, Rise};

    ghost Value = { List Tile };

    ghost view = { λ g. g.tiles.items };

    ghost invariant = { λ g. (keys_of g.tiles.items ≡ g.keys.items) × Rise g.keys.items × All PassesChecks g.tiles.items };
}

/// Tiles in order of their keys.
fn in_order(tiles: Vec<Tile>) -> Vec<Tile>
    ensures permutation { IsPermutation tiles.items result.items }
    ensures sorted { IsSortedByKey (λ t. key_of t.id) nat_cmp result.items }
{
    let mut tiles = tiles;
    tiles.sort_unstable_by_key(|tile| key(tile.id));
    tiles
}

/// Where the transition at a place of a node of a tile leads.
fn transition_in(tile: &Tile, place: u8, node: &NodeRec) -> Option<GraphId>
    ensures { result ≡ transition_in tile.now place node.now }
{
    let (from, count) = (node.transition_index, node.transition_count);
    if place >= count {
        return None;
    }
    tile.transitions
        .get(from as usize + usize::from(place))
        .copied()
}

impl TileGraph {
    /// The graph of tiles that pass the checks of a tile file, in any order: it has them in order of level and number.
    /// Linear in the tiles, but for a sort of them. `DuplicateTile` has the least id that two of the tiles have. Tiles that
    /// each pass the checks but don't agree with each other give a graph too, whose links may lead nowhere.
    pub fn of_tiles(alloc: Global, tiles: Vec<Tile>) -> Result<TileGraph, GraphFault>
        requires { All PassesChecks tiles.items }
        ensures tiles { IfOk result (λ g. IsPermutation tiles.items g) }
        ensures order { IfOk result (λ g. Rise (keys_of g)) }
        ensures once { IfOk result (λ g. (id : ℕ) → 2 ≤ tiles_with id tiles.items → ⊥) }
        ensures fault { IfErr result (λ fault. IsGraphFault tiles.items fault) }
    {
        let tiles = in_order(tiles);
        if let Some(id) = least_double(&tiles) {
            return Err(GraphFault::DuplicateTile { id });
        }
        let Ok(keys) = keys(alloc, &tiles) else {
            return Err(GraphFault::OutOfMemory);
        };
        Ok(TileGraph { keys, tiles })
    }

    /// The node with a GraphId, and `None` where there is none. Constant time, but for a search among the tiles.
    pub fn node(&self, id: GraphId) -> Option<&NodeRec>
        ensures found { IfSome (option_copied result) (λ r. IsNodeOf self.now id r) }
        ensures only { (r : NodeFields) → IsNodeOf self.now id r → option_copied result ≡ Some r }
    {
        let at = place_of(self.keys.as_slice(), key(id))?;
        self.tiles[at].nodes.get(id.id() as usize)
    }

    /// The edge with a GraphId, and `None` where there is none. Constant time, but for a search among the tiles.
    pub fn edge(&self, id: GraphId) -> Option<&EdgeRec>
        ensures found { IfSome (option_copied result) (λ r. IsEdgeOf self.now id r) }
        ensures only { (r : EdgeFields) → IsEdgeOf self.now id r → option_copied result ≡ Some r }
    {
        let at = place_of(self.keys.as_slice(), key(id))?;
        self.tiles[at].edges.get(id.id() as usize)
    }

    /// The node to which the transition at a place of a node leads, and `None` where there is none.
    pub(crate) fn transition(&self, from: GraphId, place: u8) -> Option<GraphId>
        ensures found { IfSome result (λ to. IsTransitionOf self.now from place to) }
        ensures only { (to : ℕ) → IsTransitionOf self.now from place to → result ≡ Some to }
    {
        let at = place_of(self.keys.as_slice(), key(from))?;
        let tile = &self.tiles[at];
        let node = tile.nodes.get(from.id() as usize)?;
        transition_in(tile, place, node)
    }

    /// Whether there is a node.
    pub(crate) fn has_nodes(&self) -> bool
        ensures { IsTrue result ↔ Any (λ t. length t.nodes ≢ 0) self.now }
    {
        self.tiles.iter().any(|tile| tile.nodes.len() != 0)
    }

    /// Does nothing: it tells the caller that the tiles pass the checks, and stand in order.
    fn checked(&self)
        ensures { All PassesChecks self.now × Rise (keys_of self.now) }
    {
        let _ = &self.keys;
    }

    /// Whether no sequence forbids the items to the mode.
    fn permits(&self, mode: u16, items: &[WalkItem]) -> bool
        ensures { IsTrue result ↔ All (TilePermits mode items.now) self.now }
    {
        for tile in &self.tiles {
            if !tile_permits(tile, mode, items) {
                return false;
            }
        }
        true
    }

    /// Whether these items are a walk over the tiles for one mode: they exist and lead from node to node, each edge is
    /// open to the mode, no node between two edges is closed to it, for a vehicle no mask forbids the next edge, and no
    /// sequence with the mode stands among the edges. Without items it is one where there is some node. Takes no memory.
    /// Linear in the items, but for the sequences with the mode: each of them is compared with the edges from each item on.
    pub fn tile_walk_ok(&self, items: &[WalkItem], mode: u16) -> bool
        ensures { IsTrue result ↔ IsWalkOf (file_graph self.now) VEHICLES mode items.now }
    {
        self.checked();
        walks_follow();
        follow(self, mode, items) && self.permits(mode, items)
    }
}
