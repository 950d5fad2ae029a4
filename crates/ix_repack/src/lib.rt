//! The rows of the terms of an index, put anew as their split: of all documents, or of those that are still rows of the table. Terms are
//! taken in the order of their keys, from a place on, as many as a limit allows.
#![tactic(auto)]

mod dropping;
mod joining;
mod repacking;
mod staying;
mod terms;
mod walking;

pub use repacking::{Repacked, repack_terms};
pub use terms::Term;
