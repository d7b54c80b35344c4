//! What the events do to the tiles' values, and never do to a claim.

ghost use Rattle.std.specs.Prelude.{ℕ, List};
ghost use Rattle.tile_machine.specs.Good.{ClaimStays};
ghost use Rattle.tile_machine.specs.State.{State};
ghost use Rattle.tile_machine.specs.Values.{CarriesValues};
ghost use Rattle.tile_machine.specs.declared.event.Event.{Event};

use crate::phase::Phase;

/// The law of a machine's values, for each phase, each world that it fits, every number of workers and every list of events.
///
/// Whatever the events were, the value at a place is the world's tile or the finished one, as the tile's mark says; each
/// value that a worker brought out has the readable part of the world's tile; and where all tiles are marked and at home,
/// the values are the finished tiles. The function does nothing: its clause speaks of the states that the machine's calls
/// lead to.
pub fn values_follow_marks<P: Phase>()
    ensures { (phase : P) (world : List P.Tile) (workers : ℕ) (events : List Event)
        → P.fits phase world
        → CarriesValues (P.readable phase) world (P.finished phase world) workers events }
{}

/// The law of claims, for each state and every list of events: a tile that has a claim keeps it, so it has one claimant and no
/// other for good. The function does nothing: its clause speaks of the states that the machine's calls lead to.
pub fn claims_stay()
    ensures { (s : State) (events : List Event) (tile by : ℕ) → ClaimStays s events tile by }
{}
