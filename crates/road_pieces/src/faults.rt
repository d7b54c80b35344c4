//! Why roads are refused.

use std::alloc::AllocError;
use std::error::Error;
use std::fmt;

/// Why roads are refused. Where two causes stand, the one further up is answered.
#[derive(Clone, Copy, Debug, PartialEq, Eq)]
pub enum CutFault {
    /// More than 4,000,000 pieces.
    TooManyPieces {
        count: u64,
    },
    /// A piece of more than 268,435,455 centimetres, the first in order of key.
    EdgeTooLong {
        way: i64,
        run: u32,
        piece: u32,
        cm: u64,
    },
    /// There was no memory. It may be answered in place of the others.
    OutOfMemory,
}

/// The fault as the program says it: its name, and what it names.
impl fmt::Display for CutFault {
    ghost use Rattle.std.specs.Prelude.{Some};
    ghost use Rattle.road_pieces.specs.FaultLines.{cut_fault_line};

    ghost output = { λ fault. Some (cut_fault_line fault) };

    fn fmt<W: fmt::Write>(&self, f: &mut fmt::Formatter<W>) -> fmt::Result {
        match self {
            CutFault::TooManyPieces { count } => write!(f, "Pieces count={count}"),
            CutFault::EdgeTooLong {
                way,
                run,
                piece,
                cm,
            } => write!(f, "EdgeTooLong way={way} run={run} piece={piece} cm={cm}"),
            CutFault::OutOfMemory => write!(f, "OutOfMemory"),
        }
    }
}

impl Error for CutFault {}

impl From<AllocError> for CutFault {
    ghost use Rattle.std.specs.Prelude.{◌≡◌};
    ghost use Rattle.road_pieces.specs.declared.faults.CutFault.{CutFault};

    ghost from_gives = { λ error fault. fault ≡ CutFault.OutOfMemory };

    fn from(_error: AllocError) -> CutFault {
        CutFault::OutOfMemory
    }
}
