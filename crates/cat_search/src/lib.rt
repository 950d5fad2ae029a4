//! The rows of a table that a query of CATSEARCH finds.
#![tactic(auto)]

mod bounding;
mod compiling;
mod gathering;
mod laws;
mod meeting;
mod searching;
mod slots;

pub use bounding::PlaceRange;
pub use laws::{met_rows_are_exact, met_rows_are_few, searching_laws};
pub use searching::rows_within;
