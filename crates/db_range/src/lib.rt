//! Between which places of a catalogue's sub-index the rows lie that meet conditions.
#![tactic(auto)]

mod choosing;
mod places;
mod ranges;
mod values;

pub use choosing::{SubRange, best_sub_index};
pub use places::Range;
pub use ranges::range_of;
