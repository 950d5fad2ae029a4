//! Thesauri: pairs of terms that are synonyms, broader or preferred, and what a term expands to along them.
#![tactic(auto)]

mod expanding;
mod faults;
mod laws;
mod pairs;
mod places;
mod searching;
mod terms;
mod thesauri;
mod trimming;

pub use expanding::EXPANSION_LIMIT;
pub use faults::{ExpandFault, RelateFault};
pub use laws::expansions_are_exact;
pub use pairs::{PairKind, TermPair, stated_pair};
pub use terms::Term;
pub use thesauri::{PAIR_LIMIT, Thesaurus};
