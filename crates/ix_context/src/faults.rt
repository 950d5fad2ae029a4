//! Why calls on indexes fail.

ghost use Rattle.std.specs.Prelude.{◌≡◌, Some};
ghost use Rattle.ix_context.specs.Faults.{keeper_fault};

use ct_base::Memory;
use ct_keep::KeepFault;
use thiserror::Error;

/// Why a call on an index failed.
#[derive(Clone, Copy, Debug, PartialEq, Eq, Error)]
pub enum ContextFault {
    /// There was no memory; the batch is as before the call.
    #[error("out of memory")]
    Memory,
    /// The disk failed; the keeper may not be called again.
    #[error("the disk failed")]
    Disk,
    /// The index would need more documents than there are numbers.
    #[error("too many documents")]
    TooMany,
}

impl From<Memory> for ContextFault {
    ghost use Rattle.std.specs.Prelude.{◌≡◌};
    ghost use Rattle.ix_context.specs.declared.faults.ContextFault.TheVariants.{Memory as OutOfMemory};

    ghost from_gives = { λ _ fault. fault ≡ OutOfMemory };

    fn from(_: Memory) -> ContextFault {
        ContextFault::Memory
    }
}

/// The fault of a call on an index whose reads failed so. They never answer Full.
pub(crate) fn fault_of_reads(fault: KeepFault) -> ContextFault
    requires { fault ≡ KeepFault.Full → ⊥ }
    ensures { keeper_fault result ≡ Some fault }
{
    match fault {
        KeepFault::Memory => ContextFault::Memory,
        KeepFault::Disk => ContextFault::Disk,
        KeepFault::Full => unreachable!(),
    }
}
