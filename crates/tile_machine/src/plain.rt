//! The parts of tiles that lie in a plain list.

ghost use Rattle.std.specs.Prelude.{◌≡◌, ℕ, ◌<◌, ◌≤◌, List, length, map, IfOk, refl};
ghost use Rattle.std.proofs.Common.{◌∙◌, ap, sym};
ghost use Rattle.std.proofs.lemmas.List.{length-map};
ghost use Rattle.tile_machine.specs.At.{At};
ghost use Rattle.tile_machine.specs.Late.{IfLate};

use crate::parts::{PartFault, Parts};
use crate::phase::Phase;
use std::alloc::Global;

/// The readable parts of tiles in memory, which nobody else holds: no try is ever lost.
#[derive(Drop)]
pub struct PlainParts<'a, P: Phase> {
    pub phase: &'a P,
    pub tiles: &'a [P::Tile],
}

impl<'a, P: Phase> Parts<P::Part> for PlainParts<'a, P> {
    ghost shows = { λ a ps. ps ≡ map (P.readable a.phase.now) a.tiles.now };

    ghost places = { λ a. length a.tiles.now };

    ghost lost = { λ _. 0 };

    ghost stays = { λ a b. b ≡ a };

    ghost stays_same = { λ a. refl };

    ghost stays_on = { λ a b c h k. k ∙ h };

    ghost stays_shown = { λ a b ps h shown. shown ∙ ap (λ c. map (P.readable c.phase.now) c.tiles.now) (sym h) };

    ghost counts = { λ a ps shown. ap length shown ∙ length-map a.tiles.now (P.readable a.phase.now) };

    fn count(&self) -> u64 {
        self.tiles.len() as u64
    }

    fn part(&mut self, alloc: Global, j: u64) -> Result<P::Part, PartFault> {
        match self.phase.part(alloc, &self.tiles[j as usize]) {
            Ok(part) => Ok(part),
            Err(_) => Err(PartFault::OutOfMemory),
        }
    }
}
