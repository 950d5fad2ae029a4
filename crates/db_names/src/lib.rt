//! Which indexes there are: by their names, by what they are on, and by their tables.
#![tactic(auto)]

mod heads;
mod laws;
mod listings;
mod lookups;
mod reading;

pub use heads::{IndexHead, IndexKind};
pub use laws::heads_are_exact;
pub use listings::{index_on, indexes_of};
pub use lookups::index_of;
