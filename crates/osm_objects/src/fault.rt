//! Why the objects of a block have no meaning.
ghost use Rattle.std.specs.Prelude.{◌≡◌};
ghost use Rattle.osm_objects.specs.declared.fault.ObjectFault.TheVariants.{OutOfMemory};

use std::alloc::{AllocError, AllocFailed};
use std::error::Error;
use std::fmt;

/// The first fault of a block's objects, in their order. `at` is the offset of the first byte of the object, and where
/// the string table is missing that of the block.
#[derive(Clone, Copy, Debug, PartialEq, Eq)]
pub enum ObjectFault {
    /// A field that an object has to have isn't there.
    MissingField { at: u64, number: u32 },
    /// Lists that belong together differ in length, or a member has a type that isn't one.
    Uneven { at: u64 },
    /// A sum of differences isn't a signed number of 64 bits: it is too large, or too small.
    BadNumber { at: u64 },
    /// The string table has no text with this index; or it has one that is kept and isn't UTF-8.
    BadString { at: u64, index: u64 },
    /// The node's coordinates are outside ±90 and ±180 degrees.
    BadCoordinate { id: i64 },
    /// There was no memory for the objects.
    OutOfMemory,
}

impl From<AllocError> for ObjectFault {
    ghost from_gives = { λ _ made. made ≡ OutOfMemory };

    fn from(_error: AllocError) -> ObjectFault {
        ObjectFault::OutOfMemory
    }
}

impl<T: Drop> From<AllocFailed<T>> for ObjectFault {
    ghost from_gives = { λ _ made. made ≡ OutOfMemory };

    fn from(_failed: AllocFailed<T>) -> ObjectFault {
        ObjectFault::OutOfMemory
    }
}

/// The fault as the program says it: its name, and what it names.
impl fmt::Display for ObjectFault {
    ghost use Rattle.std.specs.Prelude.{Some};
    ghost use Rattle.osm_objects.specs.FaultLines.{object_fault_line};

    ghost output = { λ fault. Some (object_fault_line fault) };

    fn fmt<W: fmt::Write>(&self, f: &mut fmt::Formatter<W>) -> fmt::Result {
        match self {
            ObjectFault::MissingField { at, number } => {
                write!(f, "MissingField at={at} number={number}")
            }
            ObjectFault::Uneven { at } => write!(f, "Uneven at={at}"),
            ObjectFault::BadNumber { at } => write!(f, "BadNumber at={at}"),
            ObjectFault::BadString { at, index } => write!(f, "BadString at={at} index={index}"),
            ObjectFault::BadCoordinate { id } => write!(f, "BadCoordinate id={id}"),
            ObjectFault::OutOfMemory => write!(f, "OutOfMemory"),
        }
    }
}

impl Error for ObjectFault {}
