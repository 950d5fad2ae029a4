//! Thesauri as stored entries: one for each thesaurus, and one for each of its pairs.
#![tactic(auto)]

mod changes;
mod laws;
mod lookups;
mod reading;
mod shapes;
mod spelling;

pub use changes::{create, relate};
pub use laws::{changes_stand, entries_are_exact, rules_stay};
pub use lookups::{has_thesaurus, is_at_pair_limit, is_at_thesaurus_limit, is_known, load, names};
pub use shapes::is_thesaurus_shape;
