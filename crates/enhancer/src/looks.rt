//! A look at a junction: its neighbours are seen.
ghost use Rattle.std.specs.Prelude.{◌≡◌, ◌<◌, true, false, List, [], ◌∷◌, length};
ghost use Rattle.bounded_flood.specs.Flood.{is_seen, seen_all};
ghost use Rattle.work_tile.specs.Places.{NumbersRise};
ghost use Rattle.work_tile.specs.WorkRows.{WorkRows};
ghost use Rattle.enhancer.specs.Graph.{same_node, ends_but, near};
ghost use Rattle.enhancer.specs.Tells.{Holds, HeldRise, IfLooked, IfFull, IfUnread};

use crate::held::{Held, held_at, place_of};
use crate::names::{NodeName, end_name, is_same};
use arrayvec::ArrayVec;
use work_tile::{NodeView, Places, WorkEdge};

/// What a look came to.
#[derive(Clone, Copy, Debug)]
pub(crate) enum Look {
    /// All neighbours were seen.
    Looked,
    /// There are more than 63.
    Full,
    /// The rows of this place are missing.
    Unread(u64),
}

/// Whether the junction was seen.
pub(crate) fn has_seen(seen: &[NodeName], x: &NodeName) -> bool
    ensures { result ≡ is_seen same_node x.now seen.now }
{
    seen.iter().any(|y| is_same(y, x))
}

/// A junction is seen, unless it was. False where there would be more than 63.
fn see_end(seen: &mut ArrayVec<NodeName, 63>, end: NodeName) -> bool
    ensures all { result ≡ true → seen.new.items ≡ seen_all same_node seen.old.items (end ∷ []) }
    ensures full { result ≡ false → 63 < length (seen_all same_node seen.old.items (end ∷ [])) }
{
    if has_seen(seen.as_slice(), &end) {
        return true;
    }
    if seen.is_full() {
        return false;
    }
    seen.push(end);
    true
}

/// The end of an edge is seen, unless it is one of the piece `left`. False where there would be more than 63.
fn see_edge(edge: &WorkEdge, left: u32, seen: &mut ArrayVec<NodeName, 63>) -> bool
    ensures all { result ≡ true → seen.new.items ≡ seen_all same_node seen.old.items (ends_but left (edge.now ∷ [])) }
    ensures full { result ≡ false → 63 < length (seen_all same_node seen.old.items (ends_but left (edge.now ∷ []))) }
{
    if edge.place == left {
        return true;
    }
    see_end(seen, end_name(edge))
}

/// The ends of the node's edges are seen, but for those of the piece `left`. False where there are more than 63.
fn see_ends(node: &NodeView<'_>, left: u32, seen: &mut ArrayVec<NodeName, 63>) -> bool
    ensures all { result ≡ true → seen.new.items ≡ seen_all same_node seen.old.items (ends_but left node.now.edges) }
    ensures full { result ≡ false → 63 < length (seen_all same_node seen.old.items (ends_but left node.now.edges)) }
{
    for k in 0..node.edges_len() {
        let edge = node.edge(k);
        if !see_edge(&edge, left, seen) {
            return false;
        }
    }
    true
}

/// The neighbours of a junction are seen.
pub(crate) fn see_neighbours(
    places: &Places,
    held: &[Held],
    level: u32,
    left: u32,
    at: NodeName,
    seen: &mut ArrayVec<NodeName, 63>,
) -> Look
    requires places { NumbersRise places.now }
    requires held { HeldRise held.now }
    ensures looked { IfLooked result ((ps : List WorkRows) → Holds held.now ps → seen.new.items ≡ seen_all same_node seen.old.items (near places.now ps level left at)) }
    ensures full { IfFull result ((ps : List WorkRows) → Holds held.now ps → 63 < length (seen_all same_node seen.old.items (near places.now ps level left at))) }
    ensures unread { IfUnread result (λ j. j < length places.now) }
{
    let Some(j) = place_of(places, level, at.tile) else {
        return Look::Looked;
    };
    let Some(h) = held_at(held, j) else {
        return Look::Unread(j);
    };
    let rows = &held[h].rows;
    let Some(i) = rows.find(&at.osm) else {
        return Look::Looked;
    };
    if see_ends(&rows.node(i), left, seen) {
        Look::Looked
    } else {
        Look::Full
    }
}
