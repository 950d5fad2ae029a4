//! The leaves of a directory over a batch: those that its edits touch are made anew, all others stay.
#![tactic(auto)]

mod editing;
mod edits;
mod finding;
mod parting;
mod placing;
mod relisting;

pub use edits::Edit;
pub use parting::{LeafNow, made_count};
pub use placing::{Placed, place_leaves};
pub use relisting::{Relisted, relist};
