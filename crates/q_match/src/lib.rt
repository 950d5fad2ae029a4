//! Which keys a slot of a phrase takes, and with which literals the keys begin that have a pattern.
#![tactic(auto)]

mod characters;
mod literals;
mod taking;

pub use literals::{leading_literal, leading_literal_law};
pub use taking::{matches, takes};
