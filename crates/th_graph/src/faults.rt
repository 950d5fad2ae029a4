//! Why a pair wasn't added, and why a term has no expansion.

ghost use Rattle.std.specs.Prelude.{◌≡◌};
ghost use Rattle.th_graph.specs.declared.faults.ExpandFault.TheVariants.{Memory as NoMemoryToExpand};
ghost use Rattle.th_graph.specs.declared.faults.RelateFault.TheVariants.{Memory as NoMemoryToRelate};

use ct_base::Memory;
use thiserror::Error;

/// Why a pair wasn't added to a thesaurus, which then is as it was.
#[derive(Clone, Copy, Debug, PartialEq, Eq, Error)]
pub enum RelateFault {
    /// The pair is there, or a preferred term was stated of a term that has one.
    #[error("the relation is known")]
    Known,
    /// The thesaurus has as many pairs as it may have.
    #[error("too many pairs")]
    TooMany,
    #[error("out of memory")]
    Memory,
}

impl From<Memory> for RelateFault {
    ghost from_gives = { λ _ fault. fault ≡ NoMemoryToRelate };

    fn from(_: Memory) -> RelateFault {
        RelateFault::Memory
    }
}

/// Why the expansion of a term isn't given.
#[derive(Clone, Copy, Debug, PartialEq, Eq, Error)]
pub enum ExpandFault {
    /// It has more than 1024 terms.
    #[error("too many terms")]
    TooMany,
    #[error("out of memory")]
    Memory,
}

impl From<Memory> for ExpandFault {
    ghost from_gives = { λ _ fault. fault ≡ NoMemoryToExpand };

    fn from(_: Memory) -> ExpandFault {
        ExpandFault::Memory
    }
}
