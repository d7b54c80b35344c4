//! Why an extract isn't built.

ghost use Rattle.std.specs.Prelude.{◌≡◌};
ghost use Rattle.build_flow.specs.LimitLines.{what_name};

use edge_builder::BaseFault;
use road_pieces::CutFault;
use std::alloc::AllocError;
use std::error::Error;
use std::fmt;
use tile_numbers::{TileFull, What};

/// A limit that the roads of an extract pass. Where they pass two, the one further up is answered; of one kind the
/// first in order of its numbers.
#[derive(Clone, Copy, Debug, PartialEq, Eq)]
pub enum LimitFault {
    /// More than 4,000,000 pieces.
    Pieces {
        count: u64,
    },
    /// A piece of more than 268,435,455 centimetres.
    EdgeTooLong {
        way: i64,
        run: u64,
        piece: u64,
        cm: u64,
    },
    /// More than 127 base edges start at a junction.
    TooManyEdges {
        node: i64,
        count: u64,
    },
    /// A tile has more than 2,097,151 nodes, or edges.
    TileFull {
        level: u64,
        tile: u64,
        what: What,
        count: u64,
    },
    /// A section of a tile has more than 4,294,967,295 words, or bytes.
    Section {
        level: u64,
        tile: u64,
        count: u64,
    },
}

/// Why an extract isn't built.
#[derive(Clone, Copy, Debug, PartialEq, Eq)]
pub enum FlowFault {
    /// Its roads pass a limit.
    Limit(LimitFault),
    /// There was no memory. It may be answered in place of the other.
    OutOfMemory,
}

impl From<AllocError> for FlowFault {
    ghost use Rattle.build_flow.specs.declared.faults.FlowFault.{FlowFault};

    ghost from_gives = { λ _ fault. fault ≡ FlowFault.OutOfMemory };

    fn from(_error: AllocError) -> FlowFault {
        FlowFault::OutOfMemory
    }
}

impl From<CutFault> for FlowFault {
    ghost use Rattle.build_flow.specs.Faults.{flow_of_cut};

    ghost from_gives = { λ cut fault. fault ≡ flow_of_cut cut };

    fn from(fault: CutFault) -> FlowFault {
        match fault {
            CutFault::TooManyPieces { count } => FlowFault::Limit(LimitFault::Pieces { count }),
            CutFault::EdgeTooLong {
                way,
                run,
                piece,
                cm,
            } => FlowFault::Limit(LimitFault::EdgeTooLong {
                way,
                run: u64::from(run),
                piece: u64::from(piece),
                cm,
            }),
            CutFault::OutOfMemory => FlowFault::OutOfMemory,
        }
    }
}

impl From<BaseFault> for FlowFault {
    ghost use Rattle.build_flow.specs.Faults.{flow_of_base};

    ghost from_gives = { λ base fault. fault ≡ flow_of_base base };

    fn from(fault: BaseFault) -> FlowFault {
        match fault {
            BaseFault::TooManyEdges { node, count } => {
                FlowFault::Limit(LimitFault::TooManyEdges { node, count })
            }
            BaseFault::OutOfMemory => FlowFault::OutOfMemory,
        }
    }
}

impl From<TileFull> for FlowFault {
    ghost use Rattle.build_flow.specs.Faults.{flow_of_full};

    ghost from_gives = { λ full fault. fault ≡ flow_of_full full };

    fn from(full: TileFull) -> FlowFault {
        FlowFault::Limit(LimitFault::TileFull {
            level: u64::from(full.level),
            tile: u64::from(full.tile),
            what: full.what,
            count: full.count,
        })
    }
}

/// The name of what a tile has too much of.
fn what_name(what: What) -> &'static str
    ensures { result.now ≡ what_name what }
{
    match what {
        What::Nodes => "nodes",
        What::Edges => "edges",
    }
}

/// The limit as the program says it: its name, and what it names.
impl fmt::Display for LimitFault {
    ghost use Rattle.std.specs.Prelude.{Some};
    ghost use Rattle.build_flow.specs.LimitLines.{limit_line};

    ghost output = { λ limit. Some (limit_line limit) };

    fn fmt<W: fmt::Write>(&self, f: &mut fmt::Formatter<W>) -> fmt::Result {
        match self {
            LimitFault::Pieces { count } => write!(f, "Pieces count={count}"),
            LimitFault::EdgeTooLong {
                way,
                run,
                piece,
                cm,
            } => write!(f, "EdgeTooLong way={way} run={run} piece={piece} cm={cm}"),
            LimitFault::TooManyEdges { node, count } => {
                write!(f, "TooManyEdges node={node} count={count}")
            }
            LimitFault::TileFull {
                level,
                tile,
                what,
                count,
            } => write!(
                f,
                "TileFull level={level} tile={tile} what={} count={count}",
                what_name(*what)
            ),
            LimitFault::Section { level, tile, count } => {
                write!(f, "Section level={level} tile={tile} count={count}")
            }
        }
    }
}

impl Error for LimitFault {}
