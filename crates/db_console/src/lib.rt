//! The console: hears a script, answers its statements one by one, and says each reply.
#![tactic(auto)]

mod endings;
mod generating;
mod responses;
mod running;
mod saying;
mod serving;

pub use running::{SCRIPT_LIMIT, STATEMENT_LIMIT, run, serve};
pub use st_cut::cut;
