//! A CONTEXT index: which rows are settled, and the postings of their texts.
#![tactic(auto)]

mod creating;
mod entries;
mod faults;
mod gathering;
mod laws;
mod marking;
mod noting;
mod places;
mod portions;
mod querying;
mod ranges;
mod shapes;
mod syncing;
mod texts;

pub use creating::create;
pub use entries::{IndexEntry, put_index, read_index};
pub use faults::ContextFault;
pub use laws::all_in_range;
pub use noting::{note_delete, note_insert, note_update, untidy};
pub use places::{Place, Tidiness};
pub use querying::prefs_of;
pub use ranges::KeyRange;
pub use shapes::is_context_shape;
pub use syncing::sync;
