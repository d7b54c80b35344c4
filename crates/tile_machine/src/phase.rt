//! What a phase of rewriting promises, so that every order of its steps ends in the same tiles.

ghost use Rattle.std.specs.Prelude.{◌≡◌, ℕ, ◌<◌, ◌≤◌, List, length, map, IfOk};
ghost use Rattle.std.proofs.Math.ListN.{get_elem?};
ghost use Rattle.tile_machine.specs.At.{At};
ghost use Rattle.tile_machine.specs.Late.{IfLate};

use crate::parts::{PartFault, Parts};
use std::alloc::{AllocError, Global};

/// A phase rewrites each tile of a world, the list of the tiles as the phase begins.
///
/// A tile has a readable part, which the phase leaves as it is, and fields that it writes. The finished tile of a place
/// follows from that place's tile and from the readable parts of all tiles. So it is the same whether a neighbour that is
/// read is finished already or not. A phase whose finished tile needs fields that it writes of a neighbour, and that its worlds
/// don't fix, has no implementation: it can't prove `from_parts`, or, where it calls such a field readable, `same_parts`.
pub trait Phase {
    type Tile: Drop;

    type Part: Drop;

    /// What others may read of a tile.
    ghost readable: { Self → Self.Tile → Self.Part };

    /// Whether the phase is made for this world.
    ghost fits: { Self → List Self.Tile → Type 0 };

    /// The finished tiles of a world, in its order.
    ghost finished: { Self → List Self.Tile → List Self.Tile };

    /// The readable part of a tile.
    fn part(&self, alloc: Global, tile: &Self::Tile) -> Result<Self::Part, AllocError>
        ensures { IfOk result (λ p. p ≡ readable self.now tile.now) };

    /// An equal tile.
    fn copy(&self, alloc: Global, tile: &Self::Tile) -> Result<Self::Tile, AllocError>
        ensures { IfOk result (λ t. t ≡ tile.now) };

    /// The finished tile of place `i`, which is one of the world's, from the world's tile there and the parts of that world.
    fn rewrite<S: Parts<Self::Part>>(
        &self,
        alloc: Global,
        i: u64,
        tile: Self::Tile,
        parts: &mut S,
    ) -> Result<Self::Tile, PartFault>
        requires world { (world : List Self.Tile) × fits self.now world
            × S.shows parts.old (map (readable self.now) world) × At world i tile }
        requires inside { i < S.places parts.old }
        ensures stays { S.stays parts.old parts.new }
        ensures lost { S.lost parts.old ≤ S.lost parts.new }
        ensures done { IfOk result (λ t. (world : List Self.Tile) → fits self.now world
            → S.shows parts.old (map (readable self.now) world) → At world i tile
            → At (finished self.now world) i t) }
        ensures late { IfLate result (S.lost parts.old < S.lost parts.new) };

    // Each place has one finished tile.
    ghost as_many: { (p : Self) (world : List Self.Tile) → fits p world
        → length (finished p world) ≡ length world };

    // Others read the same of a tile before and after it is finished.
    ghost same_parts: { (p : Self) (world : List Self.Tile) → fits p world
        → map (readable p) (finished p world) ≡ map (readable p) world };

    // Worlds that agree in the tile of a place and in all readable parts have the same finished tile there.
    ghost from_parts: { (p : Self) (v w : List Self.Tile) (i : ℕ) → fits p v → fits p w
        → get_elem? v i ≡ get_elem? w i → map (readable p) v ≡ map (readable p) w
        → get_elem? (finished p v) i ≡ get_elem? (finished p w) i };
}
