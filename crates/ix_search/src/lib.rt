//! The rows that a reduced query finds in a text index.
#![tactic(auto)]

mod document_rows;
mod gathering;
mod hits;
mod laws;
mod mapping;
mod reading;
mod scores;
mod scoring;
mod searching;
mod walking;
mod wanting;

pub use gathering::Gathered;
pub use hits::Hit;
pub use laws::{found_is_exact, looking_law, score_laws, text_laws, unsettled_not_found};
pub use searching::{gather, search};
