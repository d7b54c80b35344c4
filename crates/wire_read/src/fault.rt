//! What is wrong with bytes that aren't in the wire format.
use std::error::Error;
use std::fmt;

/// The first fault of some bytes. `at` is the place of the first byte of the varint or field that has it, counted as
/// the caller counts the places of the bytes.
#[derive(Clone, Copy, Debug, PartialEq, Eq)]
pub enum WireFault {
    /// The bytes end inside it.
    Short { at: u64 },
    /// Ten bytes of a varint all have their top bit set (section "Base 128 Varints": it has at most ten bytes).
    LongVarint { at: u64 },
    /// The wire type `kind` is none of 0, 1, 2 and 5 (section "Message Structure"; groups, 3 and 4, aren't read).
    BadWire { at: u64, kind: u8 },
    /// The field number is 0 or above 536,870,911.
    BadNumber { at: u64 },
}

/// The fault as the program says it: its name, and what it names.
impl fmt::Display for WireFault {
    ghost use Rattle.std.specs.Prelude.{Some};
    ghost use Rattle.wire_read.specs.FaultLines.{wire_fault_line};

    ghost output = { λ fault. Some (wire_fault_line fault) };

    fn fmt<W: fmt::Write>(&self, f: &mut fmt::Formatter<W>) -> fmt::Result {
        match self {
            WireFault::Short { at } => write!(f, "Short at={at}"),
            WireFault::LongVarint { at } => write!(f, "LongVarint at={at}"),
            WireFault::BadWire { at, kind } => write!(f, "BadWire at={at} kind={kind}"),
            WireFault::BadNumber { at } => write!(f, "BadNumber at={at}"),
        }
    }
}

impl Error for WireFault {}
