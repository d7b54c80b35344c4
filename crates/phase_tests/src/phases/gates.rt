//! Gates that hold a worker, but not for ever, or count what they are told.

use host_port::{Gate, Moment};
use std::sync::atomic::{AtomicBool, AtomicU64, Ordering};

const NOBODY: u64 = u64::MAX;

/// Whether the flag is set, now or soon: it is looked at this many times.
pub fn is_set_soon(flag: &AtomicBool) -> bool {
    for _ in 0..500_000_000u64 {
        if flag.load(Ordering::SeqCst) {
            return true;
        }
    }
    false
}

/// Holds the worker that claims first, until another has finished a tile.
#[derive(Drop)]
pub struct HoldsFirst {
    phase: u8,
    tiles: u64,
    held: AtomicU64,
    finished: AtomicBool,
    missed: AtomicBool,
    misled: AtomicBool,
}

impl HoldsFirst {
    /// A gate for the phase of this number, over this many tiles.
    pub fn new(phase: u8, tiles: u64) -> HoldsFirst {
        HoldsFirst {
            phase,
            tiles,
            held: AtomicU64::new(NOBODY),
            finished: AtomicBool::new(false),
            missed: AtomicBool::new(false),
            misled: AtomicBool::new(false),
        }
    }

    /// Whether a worker came to the gate.
    pub fn has_held(&self) -> bool {
        self.held.load(Ordering::SeqCst) != NOBODY
    }

    /// Whether it was let go with no tile finished by another.
    pub fn has_missed(&self) -> bool {
        self.missed.load(Ordering::SeqCst)
    }

    /// Whether it was told of another phase, or of a tile that isn't there.
    pub fn was_misled(&self) -> bool {
        self.misled.load(Ordering::SeqCst)
    }

    fn look_at(&self, phase: u8, tile: u64) {
        if phase != self.phase || self.tiles <= tile {
            self.misled.store(true, Ordering::SeqCst);
        }
    }

    fn hold_if_first(&self, worker: u64) {
        let first = self
            .held
            .compare_exchange(NOBODY, worker, Ordering::SeqCst, Ordering::SeqCst);
        if first.is_ok() && !is_set_soon(&self.finished) {
            self.missed.store(true, Ordering::SeqCst);
        }
    }
}

impl Gate for HoldsFirst {
    fn at(&self, worker: u64, moment: Moment) {
        match moment {
            Moment::Claimed { phase, tile } => {
                self.look_at(phase, tile);
                self.hold_if_first(worker);
            }
            Moment::Finished { phase, tile } => {
                self.look_at(phase, tile);
                if self.held.load(Ordering::SeqCst) != worker {
                    self.finished.store(true, Ordering::SeqCst);
                }
            }
        }
    }
}

/// Remembers which of up to 64 tiles were claimed and which finished.
#[derive(Drop)]
pub struct Counts {
    phase: u8,
    claimed: AtomicU64,
    finished: AtomicU64,
    misled: AtomicBool,
}

impl Counts {
    /// A gate for the phase of this number.
    pub fn new(phase: u8) -> Counts {
        Counts {
            phase,
            claimed: AtomicU64::new(0),
            finished: AtomicU64::new(0),
            misled: AtomicBool::new(false),
        }
    }

    /// Whether just these tiles were claimed: the lowest bit is that of tile 0.
    pub fn has_claimed(&self, tiles: u64) -> bool {
        self.claimed.load(Ordering::SeqCst) == tiles
    }

    /// The tiles that were finished.
    pub fn finished(&self) -> u64 {
        self.finished.load(Ordering::SeqCst)
    }

    /// Whether it was told of another phase, of a tile twice, or of a tile that was finished and not claimed.
    pub fn was_misled(&self) -> bool {
        self.misled.load(Ordering::SeqCst)
    }

    // Another moment of a tile is told, which follows this one.
    fn tell(&self, phase: u8, tile: u64, told: &AtomicU64, is_due: bool) {
        let bit = 1u64.rotate_left((tile % 64) as u32);
        let before = told.fetch_or(bit, Ordering::SeqCst);
        if phase != self.phase || tile > 63 || before & bit != 0 || !is_due {
            self.misled.store(true, Ordering::SeqCst);
        }
    }
}

impl Gate for Counts {
    fn at(&self, _worker: u64, moment: Moment) {
        match moment {
            Moment::Claimed { phase, tile } => self.tell(phase, tile, &self.claimed, true),
            Moment::Finished { phase, tile } => {
                let bit = 1u64.rotate_left((tile % 64) as u32);
                let is_due = self.claimed.load(Ordering::SeqCst) & bit != 0;
                self.tell(phase, tile, &self.finished, is_due);
            }
        }
    }
}
