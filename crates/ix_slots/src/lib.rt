//! Lists whose items are found by their slot and stream.
#![tactic(auto)]

mod noted_places;
mod slot_bytes;
mod slot_lists;

pub use slot_lists::{InStream, SlotList};
