//! Makes of a CSV text a script of statements: one CREATE TABLE, and one INSERT for each record.
#![tactic(auto)]

mod laws;
mod names;
mod reading;
mod records;
mod refusals;
mod rows;
mod spelling;
mod tables;
mod texts;
mod wholes;

pub use laws::script_is_read;
pub use reading::{script_of, table_of};
pub use refusals::Refusal;
pub use spelling::{STATEMENT_LIMIT, script};
pub use tables::{Column, Row, Sort, Table};
