//! Why a command failed.

ghost use Rattle.std.specs.Prelude.{◌≡◌, ◌++◌, map, codes, pos, neg_ℤ, Some, IfOk, OnOk};
ghost use Rattle.mjolnir_cli.specs.Failures.{status_of, text_of, line_of, printable, of_host, of_put, of_pbf, of_extract, of_flow};
ghost use Rattle.osm_blocks.specs.declared.fault.ExtractFault.TheVariants.{Truncated};
ghost use Rattle.tile_numbers.specs.declared.room.What.TheVariants.{Nodes};
ghost use Rattle.build_flow.specs.declared.faults.LimitFault.TheVariants.{Pieces, EdgeTooLong, TooManyEdges, TileFull, Section};
ghost use Rattle.mjolnir_cli.specs.declared.failure.Failure.TheVariants.{Words, Read, Put, Extract, NotBuilt, Limit, OutOfMemory};

use build_flow::{FlowFault, LimitFault};
use host_port::HostFault;
use osm_blocks::ExtractFault;
use pbf_blobs::PbfFault;
use std::alloc::{AllocError, Global};
use std::fmt;

/// Why a command failed. The program ends with its status, and says its line.
#[derive(Debug, PartialEq, Eq, Drop)]
pub enum Failure {
    /// The arguments name no command.
    Words,
    /// The host counted a fault of reading.
    Read,
    /// The host counted a fault of putting.
    Put,
    /// The input has this fault. A fault of reading and want of memory stand as variants of their own.
    Extract { fault: ExtractFault },
    /// A relation of the extract isn't built yet: the first turn restriction by id.
    NotBuilt { id: i64 },
    /// The roads pass this limit, the first that they pass.
    Limit { limit: LimitFault },
    /// There was no memory.
    OutOfMemory,
}

impl Failure {
    /// The status that the program ends with.
    pub fn status(&self) -> u8
        ensures { result ≡ status_of self.now }
    {
        match self {
            Failure::Words => 2,
            Failure::Read => 3,
            Failure::Put => 4,
            Failure::Extract { .. } | Failure::NotBuilt { .. } => 5,
            Failure::Limit { .. } => 6,
            Failure::OutOfMemory => 7,
        }
    }

    /// The line that the program says, with its end. A byte below 32 is said as `?`, so that it is one line.
    pub fn line(&self, alloc: Global) -> Result<Vec<u8>, AllocError>
        ensures { IfOk result (λ line. line.items ≡ line_of self.now) }
    {
        let text = format!(in alloc; "{self}")?;
        let mut line = Vec::new(alloc);
        push_printable(&mut line, text.as_bytes())?;
        line.push(b'\n')?;
        Ok(line)
    }

    /// Converts a fault of the host into a failure of a command that puts a file.
    pub(crate) fn of_put(fault: HostFault) -> Failure
        ensures { result ≡ of_put fault }
    {
        match fault {
            HostFault::Failed => Failure::Put,
            HostFault::OutOfMemory => Failure::OutOfMemory,
        }
    }
}

/// Adds these bytes as they are said: `?` in place of a byte below 32.
fn push_printable(line: &mut Vec<u8>, text: &[u8]) -> Result<(), AllocError>
    ensures { OnOk result (line.new.items ≡ line.old.items ++ map printable text.now) }
{
    for byte in text {
        line.push(printable(*byte))?;
    }
    Ok(())
}

/// A byte as it is said.
fn printable(byte: u8) -> u8
    ensures { result ≡ printable byte }
{
    if byte < 32 { 63 } else { byte }
}

impl fmt::Display for Failure {
    ghost use Rattle.std.specs.Prelude.{Some};
    ghost use Rattle.mjolnir_cli.specs.Failures.{text_of};

    ghost output = { λ failure. Some (text_of failure) };

    fn fmt<W: fmt::Write>(&self, f: &mut fmt::Formatter<W>) -> fmt::Result {
        match self {
            Failure::Words => write!(f, "error 2 words"),
            Failure::Read => write!(f, "error 3 read"),
            Failure::Put => write!(f, "error 4 put"),
            Failure::Extract { fault } => write!(f, "error 5 {fault}"),
            Failure::NotBuilt { id } => write!(f, "error 5 NotBuilt kind=relation id={id}"),
            Failure::Limit { limit } => write!(f, "error 6 {limit}"),
            Failure::OutOfMemory => write!(f, "error 7 memory"),
        }
    }
}

/// A line of each failure, without its end. The call runs no code: its contract is what it is for.
pub fn failure_lines()
    ensures words { text_of Words ≡ codes "error 2 words" }
    ensures read { text_of Read ≡ codes "error 3 read" }
    ensures put { text_of Put ≡ codes "error 4 put" }
    ensures extract { text_of (Extract (Truncated 17)) ≡ codes "error 5 Truncated at=17" }
    ensures not_built { text_of (NotBuilt (neg_ℤ (pos 7))) ≡ codes "error 5 NotBuilt kind=relation id=-7" }
    ensures pieces { text_of (Limit (Pieces 4_000_001)) ≡ codes "error 6 Pieces count=4000001" }
    ensures edge_too_long { text_of (Limit (EdgeTooLong (pos 10) 0 0 268_435_456)) ≡ codes "error 6 EdgeTooLong way=10 run=0 piece=0 cm=268435456" }
    ensures too_many_edges { text_of (Limit (TooManyEdges (pos 1000) 128)) ≡ codes "error 6 TooManyEdges node=1000 count=128" }
    ensures tile_full { text_of (Limit (TileFull 2 519_120 Nodes 2_097_152)) ≡ codes "error 6 TileFull level=2 tile=519120 what=nodes count=2097152" }
    ensures section { text_of (Limit (Section 2 519_120 4_294_967_296)) ≡ codes "error 6 Section level=2 tile=519120 count=4294967296" }
    ensures memory { text_of OutOfMemory ≡ codes "error 7 memory" }
{}

impl From<HostFault> for Failure {
    ghost from_gives = { λ fault made. made ≡ of_host fault };

    fn from(fault: HostFault) -> Failure {
        match fault {
            HostFault::Failed => Failure::Read,
            HostFault::OutOfMemory => Failure::OutOfMemory,
        }
    }
}

impl From<PbfFault> for Failure {
    ghost from_gives = { λ fault made. made ≡ of_pbf fault };

    fn from(fault: PbfFault) -> Failure {
        Failure::from(ExtractFault::from(fault))
    }
}

impl From<ExtractFault> for Failure {
    ghost from_gives = { λ fault made. made ≡ of_extract fault };

    fn from(fault: ExtractFault) -> Failure {
        match fault {
            ExtractFault::Read => Failure::Read,
            ExtractFault::OutOfMemory => Failure::OutOfMemory,
            fault => Failure::Extract { fault },
        }
    }
}

impl From<FlowFault> for Failure {
    ghost from_gives = { λ fault made. made ≡ of_flow fault };

    fn from(fault: FlowFault) -> Failure {
        match fault {
            FlowFault::Limit(limit) => Failure::Limit { limit },
            FlowFault::OutOfMemory => Failure::OutOfMemory,
        }
    }
}

impl From<AllocError> for Failure {
    ghost from_gives = { λ _ made. made ≡ OutOfMemory };

    fn from(_error: AllocError) -> Failure {
        Failure::OutOfMemory
    }
}
