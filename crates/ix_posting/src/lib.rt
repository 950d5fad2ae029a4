//! Posting rows as bytes, exact both ways, and rows that are kept as their bytes until they are needed.
#![tactic(auto)]

mod encoded;
mod faults;
mod laws;
mod numbers;
mod pairs;
mod passing;
mod places;
mod reading;
mod row_places;
mod rows;
mod writing;

pub use encoded::{EncodedRow, EncodedRows};
pub use faults::RowFault;
pub use laws::{rows_are_exact, span_rows_are_exact};
pub use places::{Place, put_places};
pub use row_places::RowPlace;
pub use rows::{Row, RowDocument};
