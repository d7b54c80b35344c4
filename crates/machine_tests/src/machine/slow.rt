//! The table of events once more, as a plain slow program over maps and sets: a hand is looked up among all locks, and a
//! worker lives where it has an end.

use std::alloc::{AllocError, Global};
use std::collections::{BTreeMap, BTreeSet};
use std::test::Fail;
use tile_machine::{Event, Refused};

#[derive(Drop)]
pub struct Slow {
    tiles: u64,
    ends: BTreeMap<u64, u64>,
    claims: BTreeMap<u64, u64>,
    locks: BTreeMap<u64, u64>,
    marks: BTreeSet<u64>,
    out: BTreeSet<u64>,
}

impl Slow {
    pub fn new(alloc: Global, tiles: u64, workers: u64) -> Result<Slow, Fail> {
        let mut ends = BTreeMap::new(alloc);
        ends.insert(0, workers)?;
        Ok(Slow {
            tiles,
            ends,
            claims: BTreeMap::new(alloc),
            locks: BTreeMap::new(alloc),
            marks: BTreeSet::new(alloc),
            out: BTreeSet::new(alloc),
        })
    }

    fn hand(&self, worker: u64) -> Option<u64> {
        for (tile, holder) in &self.locks {
            if *holder == worker {
                return Some(*tile);
            }
        }
        None
    }

    /// Where there is no such worker or no such tile, the cause.
    fn missing(&self, worker: u64, tile: u64) -> Option<Refused> {
        if !self.ends.contains_key(&worker) {
            return Some(Refused::NoWorker);
        }
        if tile >= self.tiles {
            return Some(Refused::NoTile);
        }
        None
    }

    /// The same, or that the worker doesn't hold the tile's lock.
    fn not_holding(&self, worker: u64, tile: u64) -> Option<Refused> {
        if let Some(cause) = self.missing(worker, tile) {
            return Some(cause);
        }
        if self.locks.get(&tile).copied() != Some(worker) {
            return Some(Refused::NotHolder);
        }
        None
    }

    fn claim(&mut self, worker: u64, tile: u64) -> Result<Option<Refused>, Fail> {
        if let Some(cause) = self.missing(worker, tile) {
            return Ok(Some(cause));
        }
        if let Some(by) = self.claims.get(&tile).copied() {
            return Ok(Some(Refused::Claimed { by }));
        }
        self.claims.insert(tile, worker)?;
        Ok(None)
    }

    fn take(&mut self, worker: u64, tile: u64) -> Result<Option<Refused>, Fail> {
        if let Some(cause) = self.missing(worker, tile) {
            return Ok(Some(cause));
        }
        if let Some(held) = self.hand(worker) {
            return Ok(Some(Refused::HandsFull { tile: held }));
        }
        if let Some(by) = self.locks.get(&tile).copied() {
            return Ok(Some(Refused::Held { by }));
        }
        self.locks.insert(tile, worker)?;
        Ok(None)
    }

    fn bring_out(&mut self, worker: u64, tile: u64) -> Result<Option<Refused>, Fail> {
        if let Some(cause) = self.not_holding(worker, tile) {
            return Ok(Some(cause));
        }
        if self.out.contains(&tile) {
            return Ok(Some(Refused::IsOut));
        }
        self.out.insert(tile)?;
        Ok(None)
    }

    fn mark(&mut self, worker: u64, tile: u64) -> Result<Option<Refused>, Fail> {
        if let Some(cause) = self.not_holding(worker, tile) {
            return Ok(Some(cause));
        }
        if !self.out.contains(&tile) {
            return Ok(Some(Refused::IsHome));
        }
        if self.claims.get(&tile).copied() != Some(worker) {
            return Ok(Some(Refused::NotClaimant));
        }
        if self.marks.contains(&tile) {
            return Ok(Some(Refused::Marked));
        }
        self.marks.insert(tile)?;
        Ok(None)
    }

    fn put_back(&mut self, worker: u64, tile: u64) -> Option<Refused> {
        if let Some(cause) = self.not_holding(worker, tile) {
            return Some(cause);
        }
        if !self.out.contains(&tile) {
            return Some(Refused::IsHome);
        }
        self.out.remove(&tile);
        None
    }

    fn free(&mut self, worker: u64, tile: u64) -> Option<Refused> {
        if let Some(cause) = self.not_holding(worker, tile) {
            return Some(cause);
        }
        if self.out.contains(&tile) {
            return Some(Refused::IsOut);
        }
        self.locks.remove(&tile);
        None
    }

    fn split(&mut self, worker: u64, at: u64) -> Result<Option<Refused>, Fail> {
        let Some(end) = self.ends.get(&worker).copied() else {
            return Ok(Some(Refused::NoWorker));
        };
        if at <= worker || end <= at {
            return Ok(Some(Refused::BadRange));
        }
        self.ends.insert(worker, at)?;
        self.ends.insert(at, end)?;
        Ok(None)
    }

    fn join(&mut self, worker: u64, other: u64) -> Result<Option<Refused>, Fail> {
        let Some(end) = self.ends.get(&worker).copied() else {
            return Ok(Some(Refused::NoWorker));
        };
        let Some(other_end) = self.ends.get(&other).copied() else {
            return Ok(Some(Refused::BadRange));
        };
        if other != end {
            return Ok(Some(Refused::BadRange));
        }
        if let Some(tile) = self.hand(other) {
            return Ok(Some(Refused::StillHolds { tile }));
        }
        self.ends.remove(&other);
        self.ends.insert(worker, other_end)?;
        Ok(None)
    }

    /// Takes the event, or says why not.
    pub fn answer(&mut self, event: Event) -> Result<Option<Refused>, Fail> {
        match event {
            Event::Claim { worker, tile } => self.claim(worker, tile),
            Event::Take { worker, tile } => self.take(worker, tile),
            Event::BringOut { worker, tile } => self.bring_out(worker, tile),
            Event::Mark { worker, tile } => self.mark(worker, tile),
            Event::PutBack { worker, tile } => Ok(self.put_back(worker, tile)),
            Event::Free { worker, tile } => Ok(self.free(worker, tile)),
            Event::Split { worker, at } => self.split(worker, at),
            Event::Join { worker, other } => self.join(worker, other),
        }
    }
}
