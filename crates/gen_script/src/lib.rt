//! The script of a number: statements that make a table of so many rows, index it and search it, and the line that sums up their run.
#![tactic(auto)]

mod hits;
mod laws;
mod occurring;
mod puts;
mod scripts;
mod summaries;

pub use hits::hit_count;
pub use laws::script_laws;
pub use occurring::occurs;
pub use scripts::script;
pub use summaries::summary;
