//! What no clause says: each call at a small phase, from one thread and from two.

ghost use Rattle.std.specs.Prelude.{◌≡◌, ◌<◌, length};
ghost use Rattle.tile_machine.specs.At.{At};
ghost use Rattle.tile_table.specs.Counts.{times_in, pair_times};
ghost use Rattle.tile_table.specs.declared.view.Hand.{Hand};
ghost use Rattle.tile_table.specs.Seats.{view, seat_name, IsAt};

use phase_samples::{Summand, Sums, summands};
use std::test::Fail;
use std::thread::join;
use tile_machine::Phase;
use tile_table::{Claim, Seat, TileTable, Unseen, steps_are_events};

/// Worker 0 claims a tile and holds its lock. Worker 1 is told so, and sees the tile's part after the lock was given back.
#[test]
fn two_workers_and_one_tile(rt: HostRuntime) -> Result<(), Fail> {
    let alloc = rt.alloc();
    let tiles = summands(alloc, &[1, 2, 3, 4])?;
    let (table, mut seat) = TileTable::new(alloc, &Sums, tiles, 2)?;
    let mut other = table.split(&mut seat, 1);
    assert_eq!(rt; (seat.worker(), other.worker()), (0, 1));
    let Claim::Mine = table.claim(&mut seat, 3) else {
        panic!(rt; "claimed before")
    };
    assert_eq!(rt; table.claim(&mut other, 3), Claim::Taken { by: 0 });
    match table.take(&mut seat, 3) {
        Ok(turn) => {
            assert_eq!(rt; (turn.place(), turn.tile().value), (3, 4));
            assert_eq!(rt;
                table.look(alloc, &Sums, &mut other, 3),
                Err(Unseen::Busy { holder: 0 })
            );
            table.give(&mut seat, turn);
        }
        Err(busy) => panic!(rt; "held by {}", busy.holder),
    }
    assert_eq!(rt; table.look(alloc, &Sums, &mut other, 3), Ok(4));
    table.join(&mut seat, other);
    let room = Vec::with_capacity(alloc, 4)?;
    let closed = table.close(seat, room);
    for (i, one) in closed.iter().enumerate() {
        assert_eq!(rt; (one.tile.value, one.done), (i as u32 + 1, false));
    }
    steps_are_events::<Summand>();
    Ok(())
}

/// One tile of three is finished, and its lock shows the finished tile from then on.
#[test]
fn one_tile_of_three_is_done(rt: HostRuntime) -> Result<(), Fail> {
    let tiles = [1, 2, 3]
        .map(|value| Summand { value, total: 0 })
        .to_vec(rt.alloc())?;
    let (table, mut seat) = TileTable::new(rt.alloc(), &Sums, tiles, 1)?;
    let Claim::Mine = table.claim(&mut seat, 1) else {
        panic!(rt; "claimed before")
    };
    match table.take(&mut seat, 1) {
        Ok(turn) => {
            let finished = Summand { value: 2, total: 6 };
            let old = table.finish(&mut seat, turn, finished);
            assert_eq!(rt; old, Summand { value: 2, total: 0 });
        }
        Err(busy) => panic!(rt; "held by {}", busy.holder),
    }
    match table.take(&mut seat, 1) {
        Ok(turn) => {
            assert_eq!(rt; turn.tile().total, 6);
            table.give(&mut seat, turn);
        }
        Err(busy) => panic!(rt; "held by {}", busy.holder),
    }
    let room = Vec::with_capacity(rt.alloc(), 3)?;
    let closed = table.close(seat, room);
    for (i, one) in closed.iter().enumerate() {
        let total = if i == 1 { 6 } else { 0 };
        assert_eq!(rt; (one.tile.total, one.done), (total, i == 1));
    }
    Ok(())
}

/// Claims place `i` and puts this tile there, the finished one.
fn finished<P: Phase>(table: &TileTable<P>, mut seat: Seat<P>, i: u64, tile: P::Tile) -> Seat<P>
    requires table { IsAt table.now seat }
    requires hand { (view seat).hand ≡ Hand.Empty }
    requires place { i < length (view seat).world }
    requires finished { At (view seat).goal i tile }
    ensures table { seat_name result ≡ seat_name seat }
    ensures hand { (view result).hand ≡ Hand.Empty }
    ensures world { (view result).world ≡ (view seat).world }
    ensures first { (view result).first ≡ (view seat).first }
    ensures end { (view result).end ≡ (view seat).end }
    ensures all { (view result).all ≡ (view seat).all }
{
    match table.claim(&mut seat, i) {
        Claim::Mine => put(table, seat, i, tile),
        Claim::Taken { by: _ } => seat,
    }
}

/// The same, of a place that the seat has just claimed.
fn put<P: Phase>(table: &TileTable<P>, mut seat: Seat<P>, i: u64, tile: P::Tile) -> Seat<P>
    requires table { IsAt table.now seat }
    requires hand { (view seat).hand ≡ Hand.Empty }
    requires place { i < length (view seat).world }
    requires finished { At (view seat).goal i tile }
    requires claimed { 0 < pair_times (view seat).first i (view seat).claims }
    requires unmarked { times_in i (view seat).marks ≡ 0 }
    ensures table { seat_name result ≡ seat_name seat }
    ensures hand { (view result).hand ≡ Hand.Empty }
    ensures world { (view result).world ≡ (view seat).world }
    ensures first { (view result).first ≡ (view seat).first }
    ensures end { (view result).end ≡ (view seat).end }
    ensures all { (view result).all ≡ (view seat).all }
{
    match table.take(&mut seat, i) {
        Ok(turn) => {
            let _ = table.finish(&mut seat, turn, tile);
            seat
        }
        Err(_) => seat,
    }
}

/// Two workers in threads of their own finish one tile each, and are put together again.
#[test]
fn two_threads(rt: HostRuntime) -> Result<(), Fail> {
    let tiles = [5, 6]
        .map(|value| Summand { value, total: 0 })
        .to_vec(rt.alloc())?;
    let (table, mut seat) = TileTable::new(rt.alloc(), &Sums, tiles, 2)?;
    let upper = table.split(&mut seat, 1);
    let shared = &table;
    let five = Summand {
        value: 5,
        total: 11,
    };
    let six = Summand {
        value: 6,
        total: 11,
    };
    let (mut seat, upper) = join(
        &rt,
        move || -> Seat<Sums>
            requires { IsAt shared.now seat × ((view seat).hand ≡ Hand.Empty) × (0 < length (view seat).world) × At (view seat).goal 0 five }
            ensures { (seat_name result ≡ seat_name seat) × ((view result).hand ≡ Hand.Empty) × ((view result).world ≡ (view seat).world) × ((view result).first ≡ (view seat).first) × ((view result).end ≡ (view seat).end) × ((view result).all ≡ (view seat).all) }
        { finished(shared, seat, 0, five) },
        move || -> Seat<Sums>
            requires { IsAt shared.now upper × ((view upper).hand ≡ Hand.Empty) × (1 < length (view upper).world) × At (view upper).goal 1 six }
            ensures { (seat_name result ≡ seat_name upper) × ((view result).hand ≡ Hand.Empty) × ((view result).world ≡ (view upper).world) × ((view result).first ≡ (view upper).first) × ((view result).end ≡ (view upper).end) × ((view result).all ≡ (view upper).all) }
        { finished(shared, upper, 1, six) },
    );
    table.join(&mut seat, upper);
    let room = Vec::with_capacity(rt.alloc(), 2)?;
    let closed = table.close(seat, room);
    for (i, one) in closed.iter().enumerate() {
        assert_eq!(rt; (one.tile.value, one.tile.total), (i as u32 + 5, 11));
        assert!(rt; one.done);
    }
    Ok(())
}
