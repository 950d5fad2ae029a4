//! A keeper over a store file.
#![tactic(auto)]

mod loading;
mod paged_keepers;

pub use loading::load_heap;
pub use paged_keepers::PagedKeeper;
