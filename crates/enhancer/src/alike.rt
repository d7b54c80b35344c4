//! Which edges at the end of an edge have a name in common with it.
ghost use Rattle.std.specs.Prelude.{◌≡◌, ◌<◌, List, length};
ghost use Rattle.std.specs.Str.{bytes_eq};
ghost use Rattle.std.specs.List.{list_any};
ghost use Rattle.work_tile.specs.Places.{NumbersRise};
ghost use Rattle.work_tile.specs.WorkRows.{WorkRows};
ghost use Rattle.enhancer.specs.NamesInCommon.{names_of_piece, share_name, is_named_alike, alike_bits, consistency_of};
ghost use Rattle.enhancer.specs.Tells.{Holds, HeldRise, IfKnown, IfMissing};

use crate::held::{Held, Told, held_at, place_of};
use road_pieces::{NamesView, Pieces};
use work_tile::{NodeView, Places, WorkEdge};

/// Whether a name is among these.
fn has_name(name: &str, others: &NamesView<'_>) -> bool
    ensures { result ≡ list_any (λ other. bytes_eq name.now other) others.now }
{
    for i in 0..others.len() {
        if name == others.at(i) {
            return true;
        }
    }
    false
}

/// Whether a name stands in both lists.
fn share(names: &NamesView<'_>, others: &NamesView<'_>) -> bool
    ensures { result ≡ share_name names.now others.now }
{
    for i in 0..names.len() {
        if has_name(names.at(i), others) {
            return true;
        }
    }
    false
}

/// Whether two pieces, named by their indexes, have a name in common.
fn pieces_share(pieces: &Pieces, a: u32, b: u32) -> bool
    ensures { result ≡ share_name (names_of_piece pieces.now a) (names_of_piece pieces.now b) }
{
    if a as usize >= pieces.len() || b as usize >= pieces.len() {
        return false;
    }
    let first = pieces.at(a as usize);
    let second = pieces.at(b as usize);
    share(first.names(), second.names())
}

/// Whether an edge of the node has local index `local` and a name in common with the piece.
fn alike_at(pieces: &Pieces, place: u32, node: &NodeView<'_>, local: u8) -> bool
    ensures { result ≡ is_named_alike pieces.now place node.now.edges local }
{
    for k in 0..node.edges_len() {
        let edge = node.edge(k);
        if edge.local == local && pieces_share(pieces, place, edge.place) {
            return true;
        }
    }
    false
}

/// The bits of the local indexes below 8 of the node's edges that have a name in common with the piece.
#[tactic(auto, unfolding(crate::specs::NamesInCommon::alike_bits))]
fn bits_at(pieces: &Pieces, place: u32, node: &NodeView<'_>) -> u8
    ensures { result ≡ alike_bits pieces.now place node.now.edges }
{
    let mut bits: u32 = 0;
    for k in 0..8u8 {
        bits = 2 * bits + u32::from(alike_at(pieces, place, node, 7 - k));
    }
    bits as u8
}

/// The name consistency of an edge, or the place whose rows are missing.
pub(crate) fn consistency(
    pieces: &Pieces,
    places: &Places,
    held: &[Held],
    level: u32,
    edge: &WorkEdge,
) -> Told<u8>
    requires places { NumbersRise places.now }
    requires held { HeldRise held.now }
    ensures known { IfKnown result (λ n. (ps : List WorkRows) → Holds held.now ps → n ≡ consistency_of pieces.now places.now ps level edge.now) }
    ensures missing { IfMissing result (λ j. j < length places.now) }
{
    let Some(j) = place_of(places, level, edge.end_tile) else {
        return Told::Known(0);
    };
    let Some(h) = held_at(held, j) else {
        return Told::Missing(j);
    };
    let rows = &held[h].rows;
    let Some(i) = rows.find(&edge.end) else {
        return Told::Known(0);
    };
    Told::Known(bits_at(pieces, edge.place, &rows.node(i)))
}
