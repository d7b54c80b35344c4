//! The readable parts of the tiles of a stage, as a phase asks for them.

ghost use Rattle.std.specs.Prelude.{◌≡◌, ℕ, ◌<◌, ◌≤◌, List, length, IfOk};
ghost use Rattle.tile_machine.specs.At.{At};
ghost use Rattle.tile_machine.specs.Late.{IfLate};

use std::alloc::Global;

/// Why a part can't be had now.
#[derive(Clone, Copy, Debug, PartialEq, Eq)]
pub enum PartFault {
    /// The tile at `place` was in use each time that it was tried, the last time by `holder`.
    Late { place: u64, holder: u64 },
    /// There was no memory for the part.
    OutOfMemory,
}

/// Where a phase gets the readable parts of the tiles of a world, one place at a time.
///
/// Which tiles they are read from, and whether another worker rewrites these meanwhile, is the implementation's own matter:
/// what counts is the list of parts that a value shows.
pub trait Parts<T> {
    /// The value shows this list of parts, one for each tile of a world.
    ghost shows: { Self → List T → Type 0 };

    /// How many tiles the world has.
    ghost places: { Self → ℕ };

    /// How many tries were lost so far, since another held the tile.
    ghost lost: { Self → ℕ };

    /// The second value came from the first by calls that leave the parts as they were.
    ghost stays: { Self → Self → Type 0 };

    /// The number of tiles.
    fn count(&self) -> u64
        ensures { result ≡ places self.now };

    /// The readable part of the tile at place `j`. `Late` comes only where a try was lost in this call.
    fn part(&mut self, alloc: Global, j: u64) -> Result<T, PartFault>
        requires { j < places self.old }
        ensures stays { stays self.old self.new }
        ensures lost { lost self.old ≤ lost self.new }
        ensures part { IfOk result (λ p. (ps : List T) → shows self.old ps → At ps j p) }
        ensures late { IfLate result (lost self.old < lost self.new) };

    ghost stays_same: { (a : Self) → stays a a };

    ghost stays_on: { (a b c : Self) → stays a b → stays b c → stays a c };

    ghost stays_shown: { (a b : Self) (ps : List T) → stays a b → shows a ps → shows b ps };

    ghost counts: { (a : Self) (ps : List T) → shows a ps → length ps ≡ places a };
}
