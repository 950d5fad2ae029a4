//! Cuts a script into statements.
#![tactic(auto)]

mod cutters;
mod scripts;

pub use cutters::Cutter;
pub use scripts::{cut, one_cut};
