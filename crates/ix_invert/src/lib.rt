//! The postings of several texts in order, read by several threads at once.
#![tactic(auto)]

mod inverting;
mod laws;
mod pieces;
mod postings;

pub use inverting::invert;
pub use laws::{each_has_one_inversion, terms_stand_in_turn};
pub use pieces::Piece;
pub use postings::Posting;
