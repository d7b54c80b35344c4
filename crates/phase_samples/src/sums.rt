//! A phase that reads every tile: the total of each is the sum of all values.

ghost use Rattle.std.specs.Prelude.{◌≡◌, ◌<◌, ◌^◌, length, map, sum, refl, IfOk};
ghost use Rattle.tile_machine.specs.FinishedBy.{finished_by};
ghost use Rattle.tile_machine.proofs.FromParts.{finished-many, finished-parts, finished-agree};

use std::alloc::{AllocError, Global};
use tile_machine::{PartFault, Parts, Phase};

/// A value that all may read, and a field that the phase writes.
#[derive(Clone, Copy, Debug, PartialEq, Eq)]
pub struct Summand {
    pub value: u32,
    pub total: u64,
}

/// The total of each tile is the sum of the values of all.
pub struct Sums;

impl Phase for Sums {
    type Tile = Summand;

    type Part = u32;

    ghost readable = { λ _ t. t.value };

    ghost fits = { λ _ world. length world < 2 ^ 32 };

    ghost finished = { λ _ world. finished_by (λ t. t.value) (λ i ps t. record t { total = sum ps }) world };

    ghost as_many = { λ p world fits. finished-many (λ t. t.value) (λ i ps t. record t { total = sum ps }) world };

    ghost same_parts = { λ p world fits. finished-parts (λ t. t.value) (λ i ps t. record t { total = sum ps }) (λ i ps t. refl) world };

    ghost from_parts = { λ p v w i fits_v fits_w here parts. finished-agree (λ t. t.value) (λ i ps t. record t { total = sum ps }) v w i here parts };

    fn part(&self, _alloc: Global, tile: &Summand) -> Result<u32, AllocError> {
        Ok(tile.value)
    }

    fn copy(&self, _alloc: Global, tile: &Summand) -> Result<Summand, AllocError> {
        Ok(*tile)
    }

    fn rewrite<S: Parts<u32>>(
        &self,
        alloc: Global,
        _i: u64,
        tile: Summand,
        parts: &mut S,
    ) -> Result<Summand, PartFault> {
        let mut total: u64 = 0;
        for j in 0..parts.count() {
            let value = parts.part(alloc, j)?;
            total += value as u64;
        }
        Ok(Summand {
            value: tile.value,
            total,
        })
    }
}

/// These values, none of which has a total yet.
pub fn summands(alloc: Global, values: &[u32]) -> Result<Vec<Summand>, AllocError>
    ensures many { IfOk result (λ tiles. length tiles.items ≡ length values.now) }
    ensures values { IfOk result (λ tiles. tiles.items ≡ map (λ value. record { value = value; total = 0 }) values.now) }
{
    values
        .iter()
        .map(|value| Summand {
            value: *value,
            total: 0,
        })
        .collect(alloc)
}
