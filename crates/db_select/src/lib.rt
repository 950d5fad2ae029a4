//! SELECT.
#![tactic(auto)]

mod checking;
mod choosing;
mod copying;
mod fields;
mod finds;
mod hits;
mod laws;
mod listing;
mod names;
mod ordering;
mod predicates;
mod selecting;
mod showing;
mod sources;
mod statements;
mod view_rows;
mod views;

pub use laws::{catsearch_reads_few, looking_law};
pub use statements::select;
