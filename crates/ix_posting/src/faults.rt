//! Why bytes gave no row.

ghost use Rattle.std.specs.Prelude.{◌≡◌};
ghost use Rattle.ix_posting.specs.declared.faults.RowFault.TheVariants.{Memory as OutOfMemory};

use ct_base::Memory;
use std::alloc::AllocFailed;
use thiserror::Error;

/// Why bytes gave no row.
#[derive(Clone, Copy, Debug, PartialEq, Eq, Error)]
pub enum RowFault {
    /// The bytes spell no row.
    #[error("no row")]
    BadRow,
    /// There was no memory for the row.
    #[error("out of memory")]
    Memory,
}

impl From<Memory> for RowFault {
    ghost from_gives = { λ _ fault. fault ≡ OutOfMemory };

    fn from(_: Memory) -> RowFault {
        RowFault::Memory
    }
}

impl<T: Drop> From<AllocFailed<T>> for RowFault {
    ghost from_gives = { λ _ fault. fault ≡ OutOfMemory };

    fn from(_: AllocFailed<T>) -> RowFault {
        RowFault::Memory
    }
}
