//! A table is made of the tiles of a stage.

ghost use Rattle.std.specs.Prelude.{◌≡◌, ℕ, ◌*◌, ◌<◌, ◌≤◌, ◌^◌, List, length, map, replicate, Some, IfOk};
ghost use Rattle.tile_table.specs.declared.view.View.{View};
ghost use Rattle.tile_table.specs.Views.{opening_view};
ghost use Rattle.tile_table.specs.Seats.{view, IsAt};

use crate::aim::Aim;
use crate::seat::Seat;
use crate::table::TileTable;
use atomic_table::Table;
use std::alloc::{AllocError, Global};
use tile_machine::Phase;

fn first_words(alloc: Global, tiles: u64) -> Result<Vec<u64>, AllocError>
    requires { tiles < 2 ^ 32 }
    ensures { IfOk result (λ words. words.items ≡ replicate (3 * tiles) 0) }
{
    vec![in alloc; 0; 3 * tiles as usize]
}

fn first_slots<T: Drop>(alloc: Global, tiles: Vec<T>) -> Result<Vec<Option<T>>, AllocError>
    ensures { IfOk result (λ slots. slots.items ≡ map Some tiles.items) }
{
    tiles.into_iter().map(Some).collect(alloc)
}

impl<P: Phase> TileTable<P> {
    /// A table of these tiles, and the seat of worker 0, which has all the numbers. The seat's world is the list of tiles, and
    /// its goal the list of their finished tiles. Without memory the tiles are dropped.
    pub fn new(
        alloc: Global,
        phase: &P,
        tiles: Vec<P::Tile>,
        workers: u64,
    ) -> Result<(TileTable<P>, Seat<P>), AllocError>
        requires some { 1 ≤ length tiles.items }
        requires few { length tiles.items < 2 ^ 32 }
        requires some_workers { 1 ≤ workers }
        requires few_workers { workers ≤ 64 }
        requires fits { P.fits phase.now tiles.items }
        ensures table { IfOk result (λ made. IsAt made.0 made.1) }
        ensures view { IfOk result (λ made. view made.1 ≡ opening_view tiles.items (P.finished phase.now tiles.items) workers) }
    {
        TileTable::made(alloc, phase, tiles, workers)
    }

    fn made(
        alloc: Global,
        _phase: &P,
        tiles: Vec<P::Tile>,
        workers: u64,
    ) -> Result<(TileTable<P>, Seat<P>), AllocError>
        ghost aim: { View P.Tile }
        requires some { 1 ≤ length tiles.items }
        requires few { length tiles.items < 2 ^ 32 }
        requires some_workers { 1 ≤ workers }
        requires few_workers { workers ≤ 64 }
        requires aim { (goal : List P.Tile) × (length goal ≡ length tiles.items) × (aim ≡ opening_view tiles.items goal workers) }
        ensures table { IfOk result (λ made. IsAt made.0 made.1) }
        ensures view { IfOk result (λ made. view made.1 ≡ aim) }
    {
        let count = tiles.len() as u64;
        let words = first_words(alloc, count)?;
        let slots = first_slots(alloc, tiles)?;
        let aim = Aim::of();
        match Table::new(alloc, words.as_slice(), slots, &aim) {
            Ok((table, seat)) => Ok((
                TileTable { table, count },
                Seat {
                    seat,
                    number: 0,
                    count,
                },
            )),
            Err(_) => Err(AllocError),
        }
    }
}
