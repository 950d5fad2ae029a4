//! Cursors over the documents that a query scores, and the score of a document alone.
#![tactic(auto)]

mod alone;
mod bounding;
mod building;
mod candidates;
mod cursors;
mod feeds;
mod nodes;
mod passing;
mod reading;
mod scoring;
mod seeing;
mod sources;
mod tokens;

pub use alone::score_alone;
pub use candidates::Candidates;
pub use cursors::Cursor;
pub use reading::{Feeds, SectionFeed, SlotFeed};
