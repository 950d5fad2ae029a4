//! The map from the rows of an index to its documents and back, and the queue of the rows that wait.
#![tactic(auto)]

mod changes;
mod lookups;

pub use changes::{mark, queue, unmark, unqueue};
pub use lookups::{is_pending, number_of, pending, row_of};
