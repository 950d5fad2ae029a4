//! Documents: the words of a text with their streams, and its sections.
#![tactic(auto)]

mod analysing;
mod endings;
mod entries;
mod extents;
mod fields;
mod instances;
mod laws;
mod ordering;
mod place_names;
mod places;
mod ranges;
mod views;
mod words;

pub use analysing::analyse;
pub use endings::Ending;
pub use entries::Entry;
pub use laws::{document_laws, entry_laws};
pub use views::{DocView, SectionView, SectionViews, WordView, WordViews};
