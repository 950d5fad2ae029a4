//! Executes statements.
#![tactic(auto)]

mod executing;
mod laws;
mod replies;

pub use db_state::StoreShape;
pub use executing::execute;
pub use laws::{optimising_changes_no_reply, runs_keep_limit, shown_store_stands};
pub use replies::{Reply, Stop};
