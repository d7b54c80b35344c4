//! A lock is tried again and again, but not for long.

ghost use Rattle.std.specs.Prelude.{◌≡◌, ◌<◌, length, IfOk, IfErr};
ghost use Rattle.tile_table.specs.declared.view.Hand.{Hand};
ghost use Rattle.tile_table.specs.Counts.{pair_times};
ghost use Rattle.tile_table.specs.Seats.{view, seat_name, IsAt};
ghost use Rattle.phase_run.specs.Inner.Workers.{TurnGot};
ghost use Rattle.phase_run.specs.Tries.{TriedInVain};
ghost use Rattle.tile_table.specs.Stays.{Looked};

use tile_machine::Phase;
use tile_table::{Busy, Seat, TileTable, Turn};

/// How often a lock is tried in a row. A lock is held for one copy or one put, so a worker that tries this often meets one that
/// was stopped in between; then other work is better than more tries.
pub(crate) const TRIES: u64 = 1000;

/// The lock of place `j`, which the seat has claimed, tried at most 1,000 times in a row. `Busy` names the worker that held it at
/// the last try.
pub(crate) fn taken_soon<P: Phase>(
    table: &TileTable<P>,
    seat: &mut Seat<P>,
    j: u64,
) -> Result<Turn<P>, Busy>
    requires table { IsAt table.now seat.old }
    requires hand { (view seat.old).hand ≡ Hand.Empty }
    requires place { j < length (view seat.old).world }
    requires claimed { 0 < pair_times (view seat.old).first j (view seat.old).claims }
    ensures table { seat_name seat.new ≡ seat_name seat.old }
    ensures turn { IfOk result (λ turn. TurnGot (view seat.old) j turn (view seat.new)) }
    ensures missed { IfErr result (λ busy. Looked seat.old seat.new) }
    ensures takes { IfErr result (λ busy. (view seat.new).takes ≡ (view seat.old).takes) }
    ensures tries { IfErr result (λ busy. TriedInVain j (view seat.old) (view seat.new) j busy.holder) }
{
    let mut holder = 0;
    for tried in 0..TRIES {
        match table.take(seat, j) {
            Ok(turn) => return Ok(turn),
            Err(busy) => holder = busy.holder,
        }
    }
    Err(Busy { holder })
}
