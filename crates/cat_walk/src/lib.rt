//! Walks through a catalogue's entries: the places at which words stand as a query asks, in order, without a text.
#![tactic(auto)]

mod collecting;
mod gathering;
mod listed;
mod probing;
mod scanning;
mod stepping;
mod walks;

pub use collecting::{place_list, put_stops};
pub use gathering::{places_of, put_slot};
pub use listed::place_copy;
pub use stepping::next_place;
pub use walks::Walk;
