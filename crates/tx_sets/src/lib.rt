//! Index sets: the columns of the sub-indexes that a catalogue index has, by their names, as a text tells them and as bytes.
#![tactic(auto)]

mod columns;
mod reading;
mod sets;
mod sets_laws;
mod writing;

pub use columns::read_columns;
pub use reading::read_set;
pub use sets::{IndexSet, SubIndex, are_sub_indexes, keep_names};
pub use sets_laws::sets_are_exact;
pub use writing::put_set;
