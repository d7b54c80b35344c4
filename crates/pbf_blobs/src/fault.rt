//! Why a blob isn't read.

ghost use Rattle.std.specs.Prelude.{◌≡◌};
ghost use Rattle.pbf_blobs.specs.declared.fault.PbfFault.TheVariants.{OutOfMemory};
ghost use Rattle.pbf_blobs.specs.Faults.{becomes};

use host_port::HostFault;
use std::alloc::{AllocError, AllocFailed};
use std::error::Error;
use std::fmt;
use wire_read::WireFault;

/// The first fault of a PBF file. Places, lengths and ends are in bytes, from the input's start.
#[derive(Clone, Copy, Debug, PartialEq, Eq)]
pub enum PbfFault {
    /// The host's count of read faults rose in the call.
    Read,
    /// The input ends inside the length, the header or the Blob that begins at the place `at`.
    Truncated { at: u64 },
    /// The triple at the place `at` begins with a length of 65,536 or more.
    HeaderTooLong { at: u64, len: u64 },
    /// The Blob of the triple at the place `at` has more than 33,554,496 bytes.
    BlobTooLong { at: u64, len: u64 },
    /// The Blob at the place `at` has a field 3 to 7, which holds a compressed payload.
    Compressed { at: u64, field: u32 },
    /// The header or the Blob isn't a well-formed message.
    Wire { fault: WireFault },
    /// The Blob at the place `at` has no raw payload.
    NoPayload { at: u64 },
    /// A Blob would end at the place `bytes`, past 536,870,912.
    TooLarge { bytes: u64 },
    /// There was no memory for it.
    OutOfMemory,
    /// The header at the place `at` has no field of that number: 1, the type, or 3, the datasize.
    MissingField { at: u64, number: u32 },
    /// The type in the header at the place `at` isn't UTF-8.
    BadType { at: u64 },
}

/// The fault as the program says it: its name, and what it names.
impl fmt::Display for PbfFault {
    ghost use Rattle.std.specs.Prelude.{Some};
    ghost use Rattle.pbf_blobs.specs.FaultLines.{pbf_fault_line};

    ghost output = { λ fault. Some (pbf_fault_line fault) };

    fn fmt<W: fmt::Write>(&self, f: &mut fmt::Formatter<W>) -> fmt::Result {
        match self {
            PbfFault::Read => write!(f, "Read"),
            PbfFault::Truncated { at } => write!(f, "Truncated at={at}"),
            PbfFault::HeaderTooLong { at, len } => write!(f, "HeaderTooLong at={at} len={len}"),
            PbfFault::BlobTooLong { at, len } => write!(f, "BlobTooLong at={at} len={len}"),
            PbfFault::Compressed { at, field } => write!(f, "Compressed at={at} field={field}"),
            PbfFault::Wire { fault } => write!(f, "Wire fault={fault}"),
            PbfFault::NoPayload { at } => write!(f, "NoPayload at={at}"),
            PbfFault::TooLarge { bytes } => write!(f, "TooLarge bytes={bytes}"),
            PbfFault::OutOfMemory => write!(f, "OutOfMemory"),
            PbfFault::MissingField { at, number } => write!(
                f,
                "MissingField at={at} number={number}"
            ),
            PbfFault::BadType { at } => write!(f, "BadType at={at}"),
        }
    }
}

impl Error for PbfFault {}

impl From<HostFault> for PbfFault {
    ghost from_gives = { λ fault made. made ≡ becomes fault };

    fn from(fault: HostFault) -> PbfFault {
        match fault {
            HostFault::Failed => PbfFault::Read,
            HostFault::OutOfMemory => PbfFault::OutOfMemory,
        }
    }
}

impl From<AllocError> for PbfFault {
    ghost from_gives = { λ _ made. made ≡ OutOfMemory };

    fn from(_error: AllocError) -> PbfFault {
        PbfFault::OutOfMemory
    }
}

impl<T: Drop> From<AllocFailed<T>> for PbfFault {
    ghost from_gives = { λ _ made. made ≡ OutOfMemory };

    fn from(_failed: AllocFailed<T>) -> PbfFault {
        PbfFault::OutOfMemory
    }
}
