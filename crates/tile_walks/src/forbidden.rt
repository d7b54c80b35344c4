//! Sequences among the edges of items.
ghost use Rattle.std.specs.Prelude.{◌≡◌, ◌<◌, ◌≤◌, ◌↔◌, length, IsTrue, IfSome, IfNone, slice_index_or, drop, List, ◌∷◌};
ghost use Rattle.tile_walks.specs.declared.items.WalkItem.{WalkItem};
ghost use Rattle.tile_bytes.specs.declared.sequences.Sequence.{Sequence};
ghost use Rattle.tile_walks.specs.Forbidden.{Begin, BeginSomewhere, Permits, TilePermits};

use crate::items::WalkItem;
use graph_id::GraphId;
use tile_bytes::{Sequences, Tile};

/// How many edges of a list are behind an item where so many are before it, and `None` where the item is another edge.
fn next(edges: &[GraphId], k: usize, item: WalkItem) -> Option<usize>
    requires { k < length edges.now }
    ensures some { IfSome result (λ m. (m ≤ length edges.now) × ((rest : List WalkItem) → Begin (drop k edges.now) (item ∷ rest) ↔ Begin (drop m edges.now) rest)) }
    ensures none { IfNone result ((rest : List WalkItem) → Begin (drop k edges.now) (item ∷ rest) → ⊥) }
{
    match item {
        WalkItem::Edge(id) => {
            if edges[k].value() != id.value() {
                return None;
            }
            Some(k + 1)
        }
        WalkItem::Transition { .. } => Some(k),
    }
}

/// Whether the edges of items begin with a list.
fn begin(edges: &[GraphId], items: &[WalkItem]) -> bool
    ensures { IsTrue result ↔ Begin edges.now items.now }
{
    let mut k = 0;
    for item in items {
        if k >= edges.len() {
            return true;
        }
        match next(edges, k, *item) {
            Some(m) => k = m,
            None => return false,
        }
    }
    k >= edges.len()
}

/// Whether they do from some item on.
fn begin_somewhere(edges: &[GraphId], items: &[WalkItem]) -> bool
    ensures { IsTrue result ↔ BeginSomewhere edges.now items.now }
{
    for i in 0..items.len() {
        if begin(edges, &items[i..]) {
            return true;
        }
    }
    edges.is_empty()
}

/// Whether a sequence forbids the items to the mode.
fn permits(sequences: &Sequences, i: usize, mode: u16, items: &[WalkItem]) -> bool
    requires { i < length sequences.now }
    ensures { (none : Sequence) → IsTrue result ↔ Permits mode items.now (slice_index_or sequences.now i none) }
{
    sequences.modes(i) & mode == 0 || !begin_somewhere(sequences.edges(i), items)
}

/// Whether no sequence of a tile forbids the items to the mode.
pub(crate) fn tile_permits(tile: &Tile, mode: u16, items: &[WalkItem]) -> bool
    ensures { IsTrue result ↔ TilePermits mode items.now tile.now }
{
    for i in 0..tile.sequences.len() {
        if !permits(&tile.sequences, i, mode, items) {
            return false;
        }
    }
    true
}
