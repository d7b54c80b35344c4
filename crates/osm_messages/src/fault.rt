//! Why the messages of a payload aren't read.
ghost use Rattle.std.specs.Prelude.{◌≡◌};
ghost use Rattle.osm_messages.specs.declared.fault.MessageFault.TheVariants.{Wire, OutOfMemory};

use std::alloc::{AllocError, AllocFailed};
use std::error::Error;
use std::fmt;
use wire_read::WireFault;

/// The first fault of a payload, in the order of its bytes.
#[derive(Clone, Copy, Debug, PartialEq, Eq)]
pub enum MessageFault {
    /// A message or a list of packed numbers isn't in the wire format.
    Wire { fault: WireFault },
    /// A field that may come once comes again; `at` is the offset of the first byte of the second one.
    Repeated { at: u64, number: u32 },
    /// There was no memory for what was read.
    OutOfMemory,
}

impl From<WireFault> for MessageFault {
    ghost from_gives = { λ fault made. made ≡ Wire fault };

    fn from(fault: WireFault) -> MessageFault {
        MessageFault::Wire { fault }
    }
}

impl From<AllocError> for MessageFault {
    ghost from_gives = { λ _ made. made ≡ OutOfMemory };

    fn from(_error: AllocError) -> MessageFault {
        MessageFault::OutOfMemory
    }
}

impl<T: Drop> From<AllocFailed<T>> for MessageFault {
    ghost from_gives = { λ _ made. made ≡ OutOfMemory };

    fn from(_failed: AllocFailed<T>) -> MessageFault {
        MessageFault::OutOfMemory
    }
}

/// The fault as the program says it: its name, and what it names.
impl fmt::Display for MessageFault {
    ghost use Rattle.std.specs.Prelude.{Some};
    ghost use Rattle.osm_messages.specs.FaultLines.{message_fault_line};

    ghost output = { λ fault. Some (message_fault_line fault) };

    fn fmt<W: fmt::Write>(&self, f: &mut fmt::Formatter<W>) -> fmt::Result {
        match self {
            MessageFault::Wire { fault } => write!(f, "Wire fault={fault}"),
            MessageFault::Repeated { at, number } => write!(f, "Repeated at={at} number={number}"),
            MessageFault::OutOfMemory => write!(f, "OutOfMemory"),
        }
    }
}

impl Error for MessageFault {}
