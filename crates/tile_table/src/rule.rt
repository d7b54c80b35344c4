//! The rule of a table of tiles.

use crate::aim::Aim;
use crate::view::View;
use atomic_table::TableRule;

/// The words, the slots and all that the seats know fit each other, between any two steps. It names no phase: what a finished
/// tile is stands in the views.
pub struct Tiles;

impl<T> TableRule<Option<T>, View<T>, Aim<View<T>>> for Tiles {
    ghost use Rattle.tile_table.specs.Shows.{Shows};

    ghost holds = { λ _ s. Shows s };

    ghost first = { λ aim. aim.view };
}
