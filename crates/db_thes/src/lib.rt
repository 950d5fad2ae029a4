//! The procedures of CTX_THES, which make thesauri and state relations of their terms.
#![tactic(auto)]

mod calling;
mod creating;
mod lookups;
mod relating;
mod stating;

pub use calling::call_thesaurus;
