//! Phases that leave each tile as it is.

ghost use Rattle.std.specs.Prelude.{⊤, refl};

use super::gates::is_set_soon;
use std::alloc::{AllocError, Global};
use std::sync::atomic::{AtomicBool, Ordering};
use tile_machine::{PartFault, Parts, Phase};

/// A phase of two tiles. The rewriting of each holds until that of the other has begun, but not for ever.
#[derive(Drop)]
pub struct Meeting {
    first: AtomicBool,
    second: AtomicBool,
    missed: AtomicBool,
}

impl Meeting {
    pub fn new() -> Meeting {
        Meeting {
            first: AtomicBool::new(false),
            second: AtomicBool::new(false),
            missed: AtomicBool::new(false),
        }
    }

    /// Whether one rewriting ended though the other hadn't begun.
    pub fn has_missed(&self) -> bool {
        self.missed.load(Ordering::SeqCst)
    }

    fn meet(&self, here: &AtomicBool, there: &AtomicBool) {
        here.store(true, Ordering::SeqCst);
        if !is_set_soon(there) {
            self.missed.store(true, Ordering::SeqCst);
        }
    }
}

impl Phase for Meeting {
    type Tile = u64;

    type Part = u64;

    ghost readable = { λ _ t. t };

    ghost fits = { λ _ _. ⊤ };

    ghost finished = { λ _ world. world };

    ghost as_many = { λ p world fits. refl };

    ghost same_parts = { λ p world fits. refl };

    ghost from_parts = { λ p v w i fits_v fits_w here parts. here };

    fn part(&self, _alloc: Global, tile: &u64) -> Result<u64, AllocError> {
        Ok(*tile)
    }

    fn copy(&self, _alloc: Global, tile: &u64) -> Result<u64, AllocError> {
        Ok(*tile)
    }

    fn rewrite<S: Parts<u64>>(
        &self,
        _alloc: Global,
        i: u64,
        tile: u64,
        _parts: &mut S,
    ) -> Result<u64, PartFault> {
        if i == 0 {
            self.meet(&self.first, &self.second);
        } else {
            self.meet(&self.second, &self.first);
        }
        Ok(tile)
    }
}

/// A phase whose rewriting of one place has no memory.
#[derive(Drop)]
pub struct Failing {
    pub at: u64,
}

impl Phase for Failing {
    type Tile = u64;

    type Part = u64;

    ghost readable = { λ _ t. t };

    ghost fits = { λ _ _. ⊤ };

    ghost finished = { λ _ world. world };

    ghost as_many = { λ p world fits. refl };

    ghost same_parts = { λ p world fits. refl };

    ghost from_parts = { λ p v w i fits_v fits_w here parts. here };

    fn part(&self, _alloc: Global, tile: &u64) -> Result<u64, AllocError> {
        Ok(*tile)
    }

    fn copy(&self, _alloc: Global, tile: &u64) -> Result<u64, AllocError> {
        Ok(*tile)
    }

    fn rewrite<S: Parts<u64>>(
        &self,
        _alloc: Global,
        i: u64,
        tile: u64,
        _parts: &mut S,
    ) -> Result<u64, PartFault> {
        if i == self.at {
            return Err(PartFault::OutOfMemory);
        }
        Ok(tile)
    }
}
