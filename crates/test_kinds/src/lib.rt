//! A kind of indexes for tests, as small as one can be: an index lists the rows of its table, and waits for nothing.
#![tactic(auto)]

mod laws;

pub use laws::{kinds_with_row_lists_keep_the_laws, row_lists_keep_the_laws};
