//! The trees of queries, as they are written and reduced; which reduced queries are sound, and their scores.
#![tactic(auto)]

mod flats;
mod laws;
mod queries;
mod same;
mod soundness;

pub use flats::{Flat, Pattern, PatternBit, Phrase, Phrases, Place, Slot, SumStep};
pub use laws::{occurrence_laws, posting_laws, same_slot_laws, sum_laws};
pub use queries::{Leaf, Op, Query, Relation, Word, WordBit, WordSlot};
pub use same::same_slot;
