//! CTX_QUERY.RESULT_SET: how many rows a query finds, those from one number to another in an order, and how many have each value.
#![tactic(auto)]

mod calling;
mod checking;
mod laws;
mod listing;
mod ordering;
mod rows;

pub use calling::result_set;
pub use laws::looking_law;
