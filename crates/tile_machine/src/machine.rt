//! The states of the workers of a stage and what each event does to them, for every list of events.

ghost use Rattle.std.specs.Prelude.{◌≡◌, ℕ, ◌<◌, ◌≤◌, ◌^◌, List, length, Ok, Err, IfOk, IfErr, OnOk, OnErr, map, replicate};
ghost use Rattle.std.specs.List.{range_with_len};
ghost use Rattle.tile_machine.specs.Good.{IsGood};
ghost use Rattle.tile_machine.specs.Next.{next_state, leads, accepted};
ghost use Rattle.tile_machine.specs.State.{State, untouched, ranging, first_state};
ghost use Rattle.tile_machine.specs.Inner.{state_of};

use crate::event::Event;
use crate::refused::Refused;
use crate::state::{Cell, Worker};
use crate::table;
use std::alloc::{AllocError, Global};
use std::marker::Model;

/// The workers of a stage and its tiles, as a plain value. Contracts see it as the state.
#[derive(Drop)]
pub struct Machine {
    cells: Vec<Cell>,
    workers: Vec<Worker>,
}

impl Model for Machine {
    ghost Value = { State };

    ghost view = { λ m. state_of m.cells.items m.workers.items };

    ghost invariant = { λ m. IsGood (length m.workers.items) (state_of m.cells.items m.workers.items) };
}

fn untouched_cells(alloc: Global, tiles: u64) -> Result<Vec<Cell>, AllocError>
    ensures { IfOk result (λ cells. cells.items ≡ replicate tiles untouched) }
{
    let untouched = Cell {
        claim: None,
        lock: None,
        marked: false,
        home: true,
    };
    vec![in alloc; untouched; tiles as usize]
}

fn idle_workers(alloc: Global, workers: u64) -> Result<Vec<Worker>, AllocError>
    ensures { IfOk result (λ all. all.items ≡ map (λ n. ranging n n) (range_with_len 0 workers)) }
{
    (0..workers)
        .map(|n| Worker {
            first: n,
            end: n,
            hand: None,
        })
        .collect(alloc)
}

impl Machine {
    /// A machine with this many tiles and workers. No tile has a claim, a lock or a mark, each value is in its place, and
    /// worker 0 has all the numbers.
    pub fn new(alloc: Global, tiles: u64, workers: u64) -> Result<Machine, AllocError>
        requires tiles { tiles < 2 ^ 32 }
        requires some { 1 ≤ workers }
        requires few { workers ≤ 64 }
        ensures start { IfOk result (λ m. m ≡ first_state tiles workers) }
        ensures good { IfOk result (IsGood workers) }
    {
        let cells = untouched_cells(alloc, tiles)?;
        let mut all = idle_workers(alloc, workers)?;
        all[0] = Worker {
            first: 0,
            end: workers,
            hand: None,
        };
        Ok(Machine {
            cells,
            workers: all,
        })
    }

    /// Takes the event, or says the first cause for which it is refused and changes nothing.
    pub fn step(&mut self, event: Event) -> Result<(), Refused>
        ensures taken { OnOk result (next_state self.old event ≡ Ok self.new) }
        ensures refused { IfErr result (λ cause. next_state self.old event ≡ Err cause) }
        ensures unchanged { OnErr result (self.new ≡ self.old) }
        ensures good { IsGood (length self.old.workers) self.new }
    {
        table::step(&mut self.cells, &mut self.workers, event)
    }

    /// Takes these events one after another, and says how many were accepted.
    pub fn run(&mut self, events: &[Event]) -> u64
        ensures state { self.new ≡ leads self.old events.now }
        ensures count { result ≡ accepted self.old events.now }
        ensures good { IsGood (length self.old.workers) self.new }
    {
        // The fields are looked at so that what is true of them is known from here on.
        let _ = &self.workers;
        let mut count = 0;
        for event in events {
            count += match self.step(*event) {
                Ok(()) => 1,
                Err(_) => 0,
            };
        }
        count
    }
}
