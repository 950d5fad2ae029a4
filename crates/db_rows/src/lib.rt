//! Conditions on the rows of a table: their checks, and which rows meet them.
#![tactic(auto)]

mod bounds;
mod checking;
mod meeting;
mod reading;
mod sources;
mod walking;

pub use bounds::{KeyBounds, column_bounds, is_on};
pub use checking::{
    cond_column, conds_fault, fit_columns, fits_cond, has_beyond, sort_of, unknown_column,
};
pub use meeting::read_if_met;
pub use reading::{RowRead, Shown, column_value, row_numbers};
pub use sources::{Source, source_of};
pub use walking::{MetRow, keys_meeting, rows_meeting};
