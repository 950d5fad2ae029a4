//! Why a query can't be reduced.

ghost use Rattle.std.specs.Prelude.{◌≡◌};
ghost use Rattle.q_reduce.specs.declared.faults.ReduceFault.TheVariants.{Memory as OutOfMemory};

use ct_base::{Memory, Name};
use std::alloc::{AllocError, AllocFailed};

/// Why a query can't be reduced for an index.
#[derive(Debug, Drop)]
pub enum ReduceFault {
    /// The index's group has no section of this name.
    NoSection(Name),
    /// The field of this name stands inside another WITHIN.
    FieldInside(Name),
    /// There is no thesaurus of this name.
    NoThesaurus(Name),
    /// A term expands to more than 1024 terms.
    ManyTerms,
    /// The word at this place of the text, counted from 1, is joined to another by EQUIV and isn't exactly one token.
    ManyTokens(u32),
    Memory,
}

impl From<Memory> for ReduceFault {
    ghost from_gives = { λ _ fault. fault ≡ OutOfMemory };

    fn from(_: Memory) -> ReduceFault {
        ReduceFault::Memory
    }
}

impl From<AllocError> for ReduceFault {
    ghost from_gives = { λ _ fault. fault ≡ OutOfMemory };

    fn from(_: AllocError) -> ReduceFault {
        ReduceFault::Memory
    }
}

impl<T: Drop> From<AllocFailed<T>> for ReduceFault {
    ghost from_gives = { λ _ fault. fault ≡ OutOfMemory };

    fn from(_: AllocFailed<T>) -> ReduceFault {
        ReduceFault::Memory
    }
}
