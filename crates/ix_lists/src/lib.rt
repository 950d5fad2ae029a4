//! Posting lists that are walked document by document: their rows are decoded as they are needed, one at a time.
#![tactic(auto)]

mod merging;
mod postings;

pub use merging::merged;
pub use postings::Postings;
