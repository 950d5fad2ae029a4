//! Why bytes gave no query.

ghost use Rattle.std.specs.Prelude.{◌≡◌};
ghost use Rattle.q_stored.specs.declared.faults.StoredFault.TheVariants.{Memory as OutOfMemory};

use ct_base::Memory;
use thiserror::Error;

/// Why bytes gave no query.
#[derive(Clone, Copy, Debug, PartialEq, Eq, Error)]
pub enum StoredFault {
    /// The bytes spell no query that may be stored.
    #[error("not a stored query")]
    BadQuery,
    /// There was no memory for the query.
    #[error("out of memory")]
    Memory,
}

impl From<Memory> for StoredFault {
    ghost from_gives = { λ _ fault. fault ≡ OutOfMemory };

    fn from(_: Memory) -> StoredFault {
        StoredFault::Memory
    }
}
