//! What the tags of a node say.

ghost use Rattle.std.specs.Prelude.{◌≡◌, ◌↔◌, bit_and};
ghost use Rattle.way_tags.specs.Modes.{Mode, HasMode};
ghost use Rattle.way_tags.specs.Nodes.{is_barrier_node, PassesNode, node_modes};

use crate::access::decided_modes;
use crate::found::{places_of, value_at};
use crate::highways::modes_at_barrier;
use crate::known_keys::BARRIER;
use crate::modes::ALL;
use osm_model::TagsView;

/// Whether a node is a barrier.
pub fn is_barrier(tags: &TagsView<'_>) -> bool
    ensures { result ≡ is_barrier_node tags.now }
{
    if tags.is_empty() {
        return false;
    }
    match value_at(tags, &places_of(tags), BARRIER) {
        Some(barrier) => barrier != "no",
        None => false,
    }
}

/// The modes that may pass a node, as bits: all where it is no barrier.
pub fn node_access(tags: &TagsView<'_>) -> u16
    ensures word { result ≡ node_modes tags.now }
    ensures modes { (mode : Mode) → HasMode result mode ↔ PassesNode tags.now mode }
    ensures within { bit_and result ALL ≡ result }
{
    if tags.is_empty() {
        return ALL;
    }
    let places = places_of(tags);
    match value_at(tags, &places, BARRIER) {
        None | Some("no") => ALL,
        Some(barrier) => decided_modes(tags, &places, modes_at_barrier(barrier)),
    }
}
