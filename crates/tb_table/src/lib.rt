//! Tables, their columns and their rows as entries.
#![tactic(auto)]

mod changes;
mod columns;
mod laws;
mod listings;
mod lookups;
mod reading;
mod removals;
mod row_counts;
mod shapes;
mod writing;

pub use changes::{create, insert, update};
pub use columns::{Column, Sort, Target};
pub use laws::{changes_stand, entries_are_exact, rows_go, rules_stay};
pub use listings::{next_row, tables};
pub use lookups::{columns_of, has_row, number_row, text_of};
pub use removals::{delete, remove};
pub use row_counts::row_count;
pub use shapes::is_table_shape;
