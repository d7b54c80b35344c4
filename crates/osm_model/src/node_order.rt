//! Nodes in another order: numbers are moved, and no tag.

ghost use Rattle.std.specs.Prelude.{◌≡◌, ◌<◌, ◌≤◌, ◌^◌, ◌+◌, ◌++◌, ◌∷◌, [], length, OnOk, IfOk};
ghost use Rattle.osm_model.specs.NodeRows.{SpansRise};
ghost use Rattle.osm_model.specs.NodeOrder.{placed_from, AddsSpan, IsInOrder};

use crate::node_spans::{TagSpan, find_span};
use crate::nodes::Spot;
use std::alloc::{AllocError, Global};

/// A node without its tags, and its place in the list.
#[derive(Clone, Copy, Debug)]
pub(crate) struct PlacedSpot {
    pub spot: Spot,
    pub place: u32,
}

#[tactic(auto, using(crate::proofs::NodeOrder::placed_more))]
/// Each spot with its place.
pub(crate) fn placed_spots(alloc: Global, spots: &[Spot]) -> Result<Vec<PlacedSpot>, AllocError>
    requires { length spots.now < 2 ^ 32 }
    ensures { IfOk result (λ placed. placed.items ≡ placed_from 0 spots.now) }
{
    let mut placed = Vec::with_capacity(alloc, spots.len())?;
    for (place, spot) in spots.iter().enumerate() {
        placed.push(PlacedSpot {
            spot: *spot,
            place: place as u32,
        })?;
    }
    Ok(placed)
}

/// Puts a spot behind the others, and its span behind the others where it has one among those of the old list.
fn add_placed(
    old: &[TagSpan],
    one: &PlacedSpot,
    starts: &[u32],
    spots: &mut Vec<Spot>,
    spans: &mut Vec<TagSpan>,
) -> Result<(), AllocError>
    requires rises { SpansRise old.now }
    requires few { length spots.old.items + 1 < 2 ^ 32 }
    ensures spots { OnOk result (spots.new.items ≡ spots.old.items ++ one.now.spot ∷ []) }
    ensures spans { OnOk result (AddsSpan old.now one.now.place (length spots.old.items) spans.old.items spans.new.items) }
{
    let place = spots.len();
    spots.push(one.spot)?;
    match find_span(old, starts, one.place) {
        Some(k) => {
            let span = old[k];
            spans.push(TagSpan {
                place: place as u32,
                from: span.from,
                to: span.to,
            })?;
            Ok(())
        }
        None => Ok(()),
    }
}

/// The spots and spans of a list that has the nodes in this order. The starts are those of the old list.
pub(crate) fn in_order(
    alloc: Global,
    old: &[TagSpan],
    placed: &[PlacedSpot],
    starts: &[u32],
) -> Result<(Vec<Spot>, Vec<TagSpan>), AllocError>
    requires rises { SpansRise old.now }
    requires few { length placed.now < 2 ^ 32 }
    ensures { IfOk result (λ made. IsInOrder old.now placed.now made.0.items made.1.items) }
{
    let mut spots = Vec::with_capacity(alloc, placed.len())?;
    let mut spans = Vec::with_capacity(alloc, old.len())?;
    for one in placed {
        add_placed(old, one, starts, &mut spots, &mut spans)?;
    }
    Ok((spots, spans))
}
