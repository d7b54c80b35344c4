//! Why bytes are refused.
ghost use Rattle.std.specs.Prelude.{◌≡◌};
ghost use Rattle.section_grammar.specs.declared.fault.SectionFault.TheVariants.{OutOfMemory};

use std::alloc::{AllocError, AllocFailed};

/// The first check that fails and the offset at which it does, or want of memory.
#[derive(Clone, Copy, Debug, PartialEq, Eq)]
pub enum SectionFault {
    Bad { check: u8, at: u64 },
    OutOfMemory,
}

impl From<AllocError> for SectionFault {
    ghost from_gives = { λ _ e. e ≡ OutOfMemory };

    fn from(_e: AllocError) -> SectionFault {
        SectionFault::OutOfMemory
    }
}

impl<T: Drop> From<AllocFailed<T>> for SectionFault {
    ghost from_gives = { λ _ e. e ≡ OutOfMemory };

    fn from(_e: AllocFailed<T>) -> SectionFault {
        SectionFault::OutOfMemory
    }
}
