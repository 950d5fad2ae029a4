//! The entries of a store: their kinds, their keys, and changes on them.
#![tactic(auto)]

mod entries;
mod kinds;
mod listings;
mod parts;
mod removals;

pub use entries::{entry_count, fetch_entry, has_entry, key_bytes, put_entry, remove_entry};
pub use kinds::Kind;
pub use listings::{entries_of, next_row_key, owner_in, owners, row_in, row_keys};
pub use parts::{is_row_part, key_parts};
pub use removals::remove_entries;
