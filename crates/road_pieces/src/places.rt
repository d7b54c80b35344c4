//! Nodes by their places in the list of nodes.

ghost use Rattle.std.specs.Prelude.{◌≡◌, ◌<◌, true, false, length, IfSome, IfNone};
ghost use Rattle.osm_model.specs.Extract.{NodesRise};
ghost use Rattle.road_pieces.specs.Runs.{has_node};
ghost use Rattle.road_pieces.specs.Lines.{place_of};
ghost use Rattle.road_pieces.specs.NodeIndex.{OnlyWithin};

use osm_model::Nodes;
use std::cmp::Ordering;

/// The place of the node with that id, and `None` where there is none. It is sought from `low` on and before
/// `high`, since no node elsewhere has the id: at `guess` first, then by halves.
pub(crate) fn find_within(
    nodes: &Nodes,
    low: usize,
    high: usize,
    id: &i64,
    guess: usize,
) -> Option<usize>
    requires rises { NodesRise nodes.now }
    requires only { OnlyWithin nodes.now id.now low high }
    ensures inside { IfSome result (λ place. place < length nodes.now) }
    ensures place { IfSome result (λ place. place_of nodes.now id.now ≡ place) }
    ensures some { IfSome result (λ _. has_node nodes.now id.now ≡ true) }
    ensures none { IfNone result (has_node nodes.now id.now ≡ false) }
{
    // A guess elsewhere is wrong. It isn't looked at, which would cost a read of far memory.
    if low <= guess && guess < high && nodes.cmp_id_at(guess, id).is_eq() {
        return Some(guess);
    }
    let mut low = low;
    let mut high = high;
    while low < high {
        let middle = low + (high - low) / 2;
        match nodes.cmp_id_at(middle, id) {
            Ordering::Less => low = middle + 1,
            Ordering::Equal => return Some(middle),
            Ordering::Greater => high = middle,
        }
    }
    None
}
