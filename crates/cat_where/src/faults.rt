//! Why a text is no structured query.

ghost use Rattle.std.specs.Prelude.{◌≡◌};
ghost use Rattle.cat_where.specs.declared.faults.WhereFault.TheVariants.{Memory as NoMemory};

use ct_base::Memory;
use thiserror::Error;

/// Why a text is no structured query. Places are counted in bytes from 1.
#[derive(Clone, Copy, Debug, PartialEq, Eq, Error)]
pub enum WhereFault {
    /// No structured query has the lexeme at this place there, or it ends too soon.
    #[error("query syntax at {0}")]
    Syntax(u32),
    /// The digits at this place stand where a value may stand, and are with their sign a number outside `i64`.
    #[error("number out of range at {0}")]
    BadNumber(u32),
    #[error("out of memory")]
    Memory,
}

impl From<Memory> for WhereFault {
    ghost from_gives = { λ _ fault. fault ≡ NoMemory };

    fn from(_: Memory) -> WhereFault {
        WhereFault::Memory
    }
}
