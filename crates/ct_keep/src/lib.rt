//! A keeper of entries: what it holds is a finite map from bytes to bytes.
#![tactic(auto)]

mod batches;
mod entry_keys;
mod entry_maps;
mod holdings;
mod keepers;
mod key_lists;
mod limits;
mod mem_keepers;
mod owner_counts;
mod scans;
mod sorted_entries;
mod tallies;
mod transactions;
mod undo_logs;

pub use batches::{Batch, Change};
pub use entry_keys::{EntryKey, byte_cmp, value_of};
pub use entry_maps::EntryMap;
pub use keepers::{KeepFault, Keeper, Shape};
pub use limits::{KEY_LIMIT, VALUE_LIMIT};
pub use mem_keepers::MemKeeper;
pub use owner_counts::OwnerCounts;
pub use scans::{first_under, next_under, scan};
pub use sorted_entries::SortedEntries;
pub use tallies::Tally;
pub use transactions::Transaction;
