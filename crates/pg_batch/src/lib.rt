//! The changes of a batch by their keys: in order, each key once, with where its entry stands, what it weighs, and who owns it.
#![tactic(auto)]

mod asking;
mod counting;
mod ordering;
mod placing;
mod strings;
mod weighing;

pub use asking::{Asked, ask};
pub use counting::{count_gone, count_new, uncount_new};
pub use ordering::by_key;
pub use placing::{place_of, places_of};
pub use weighing::{old_weights, weight_after};
