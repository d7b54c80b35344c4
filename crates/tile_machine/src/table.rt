//! The table of events over the plain lists: each function is one event, its refusals in their order.

ghost use Rattle.std.specs.Prelude.{◌≡◌, ◌&&◌, length, slice_get, nat_lt};
ghost use Rattle.tile_machine.specs.Good.{IsGood};
ghost use Rattle.tile_machine.specs.Next.{names_worker, if_next};
ghost use Rattle.tile_machine.specs.Inner.{Follows};
ghost use Rattle.tile_machine.specs.State.{if_live};
ghost use Rattle.tile_machine.specs.Inner.{state_of};

use crate::event::Event;
use crate::refused::Refused;
use crate::state::{Cell, Worker};

fn live(workers: &[Worker], n: u64) -> Option<Worker>
    ensures { result ≡ if_live (slice_get workers.now n) }
{
    if n >= workers.len() as u64 {
        return None;
    }
    let worker = workers[n as usize];
    if worker.first < worker.end {
        Some(worker)
    } else {
        None
    }
}

fn found(cells: &[Cell], tile: u64) -> Option<Cell>
    ensures { result ≡ slice_get cells.now tile }
{
    if tile >= cells.len() as u64 {
        return None;
    }
    Some(cells[tile as usize])
}

fn is_named(who: Option<u64>, worker: u64) -> bool
    ensures { result ≡ names_worker who worker }
{
    match who {
        Some(named) => named == worker,
        None => false,
    }
}

fn is_inside(me: Worker, at: u64) -> bool
    ensures { result ≡ (nat_lt me.first at && nat_lt at me.end) }
{
    me.first < at && at < me.end
}

fn next_to(workers: &[Worker], me: Worker, other: u64) -> Option<Worker>
    ensures { result ≡ if_next me (if_live (slice_get workers.now other)) }
{
    let its = live(workers, other)?;
    if its.first == me.end { Some(its) } else { None }
}

fn claim(cells: &mut [Cell], workers: &[Worker], worker: u64, tile: u64) -> Result<(), Refused>
    ensures { Follows (state_of cells.old workers.now) (Event.Claim worker tile) result
        (state_of cells.new workers.now) }
{
    let Some(_me) = live(workers, worker) else {
        return Err(Refused::NoWorker);
    };
    let Some(it) = found(cells, tile) else {
        return Err(Refused::NoTile);
    };
    if let Some(by) = it.claim {
        return Err(Refused::Claimed { by });
    }
    cells[tile as usize].claim = Some(worker);
    Ok(())
}

fn take(cells: &mut [Cell], workers: &mut [Worker], worker: u64, tile: u64) -> Result<(), Refused>
    ensures { Follows (state_of cells.old workers.old) (Event.Take worker tile) result
        (state_of cells.new workers.new) }
{
    let Some(me) = live(workers, worker) else {
        return Err(Refused::NoWorker);
    };
    let Some(it) = found(cells, tile) else {
        return Err(Refused::NoTile);
    };
    if let Some(tile) = me.hand {
        return Err(Refused::HandsFull { tile });
    }
    if let Some(by) = it.lock {
        return Err(Refused::Held { by });
    }
    cells[tile as usize].lock = Some(worker);
    workers[worker as usize].hand = Some(tile);
    Ok(())
}

fn bring_out(cells: &mut [Cell], workers: &[Worker], worker: u64, tile: u64) -> Result<(), Refused>
    ensures { Follows (state_of cells.old workers.now) (Event.BringOut worker tile) result
        (state_of cells.new workers.now) }
{
    let Some(_me) = live(workers, worker) else {
        return Err(Refused::NoWorker);
    };
    let Some(it) = found(cells, tile) else {
        return Err(Refused::NoTile);
    };
    if !is_named(it.lock, worker) {
        return Err(Refused::NotHolder);
    }
    if !it.home {
        return Err(Refused::IsOut);
    }
    cells[tile as usize].home = false;
    Ok(())
}

fn mark(cells: &mut [Cell], workers: &[Worker], worker: u64, tile: u64) -> Result<(), Refused>
    ensures { Follows (state_of cells.old workers.now) (Event.Mark worker tile) result
        (state_of cells.new workers.now) }
{
    let Some(_me) = live(workers, worker) else {
        return Err(Refused::NoWorker);
    };
    let Some(it) = found(cells, tile) else {
        return Err(Refused::NoTile);
    };
    if !is_named(it.lock, worker) {
        return Err(Refused::NotHolder);
    }
    if it.home {
        return Err(Refused::IsHome);
    }
    if !is_named(it.claim, worker) {
        return Err(Refused::NotClaimant);
    }
    if it.marked {
        return Err(Refused::Marked);
    }
    cells[tile as usize].marked = true;
    Ok(())
}

fn put_back(cells: &mut [Cell], workers: &[Worker], worker: u64, tile: u64) -> Result<(), Refused>
    ensures { Follows (state_of cells.old workers.now) (Event.PutBack worker tile) result
        (state_of cells.new workers.now) }
{
    let Some(_me) = live(workers, worker) else {
        return Err(Refused::NoWorker);
    };
    let Some(it) = found(cells, tile) else {
        return Err(Refused::NoTile);
    };
    if !is_named(it.lock, worker) {
        return Err(Refused::NotHolder);
    }
    if it.home {
        return Err(Refused::IsHome);
    }
    cells[tile as usize].home = true;
    Ok(())
}

fn free(cells: &mut [Cell], workers: &mut [Worker], worker: u64, tile: u64) -> Result<(), Refused>
    ensures { Follows (state_of cells.old workers.old) (Event.Free worker tile) result
        (state_of cells.new workers.new) }
{
    let Some(_me) = live(workers, worker) else {
        return Err(Refused::NoWorker);
    };
    let Some(it) = found(cells, tile) else {
        return Err(Refused::NoTile);
    };
    if !is_named(it.lock, worker) {
        return Err(Refused::NotHolder);
    }
    if !it.home {
        return Err(Refused::IsOut);
    }
    cells[tile as usize].lock = None;
    workers[worker as usize].hand = None;
    Ok(())
}

fn split(cells: &[Cell], workers: &mut [Worker], worker: u64, at: u64) -> Result<(), Refused>
    requires { IsGood (length workers.old) (state_of cells.now workers.old) }
    ensures { Follows (state_of cells.now workers.old) (Event.Split worker at) result
        (state_of cells.now workers.new) }
{
    let Some(me) = live(workers, worker) else {
        return Err(Refused::NoWorker);
    };
    if !is_inside(me, at) {
        return Err(Refused::BadRange);
    }
    workers[worker as usize] = Worker { end: at, ..me };
    workers[at as usize] = Worker {
        first: at,
        end: me.end,
        hand: None,
    };
    Ok(())
}

fn join(cells: &[Cell], workers: &mut [Worker], worker: u64, other: u64) -> Result<(), Refused>
    ensures { Follows (state_of cells.now workers.old) (Event.Join worker other) result
        (state_of cells.now workers.new) }
{
    let Some(me) = live(workers, worker) else {
        return Err(Refused::NoWorker);
    };
    let Some(its) = next_to(workers, me, other) else {
        return Err(Refused::BadRange);
    };
    if let Some(tile) = its.hand {
        return Err(Refused::StillHolds { tile });
    }
    workers[worker as usize] = Worker { end: its.end, ..me };
    workers[other as usize] = Worker {
        first: its.first,
        end: its.first,
        hand: None,
    };
    Ok(())
}

pub fn step(cells: &mut [Cell], workers: &mut [Worker], event: Event) -> Result<(), Refused>
    requires { IsGood (length workers.old) (state_of cells.old workers.old) }
    ensures table { Follows (state_of cells.old workers.old) event result
        (state_of cells.new workers.new) }
    ensures good { IsGood (length workers.old) (state_of cells.new workers.new) }
{
    match event {
        Event::Claim { worker, tile } => claim(cells, workers, worker, tile),
        Event::Take { worker, tile } => take(cells, workers, worker, tile),
        Event::BringOut { worker, tile } => bring_out(cells, workers, worker, tile),
        Event::Mark { worker, tile } => mark(cells, workers, worker, tile),
        Event::PutBack { worker, tile } => put_back(cells, workers, worker, tile),
        Event::Free { worker, tile } => free(cells, workers, worker, tile),
        Event::Split { worker, at } => split(cells, workers, worker, at),
        Event::Join { worker, other } => join(cells, workers, worker, other),
    }
}
