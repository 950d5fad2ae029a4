//! Whether conditions hold, printed lines, and the texts of refusals.
#![tactic(auto)]

mod conditions;
mod faults;
mod lines;

pub use conditions::holds;
pub use faults::{
    Fault, fault_line, no_rows, not_understood, out_of_memory, statement_too_long, store_full,
};
pub use lines::{line, rows_line, word_line};
