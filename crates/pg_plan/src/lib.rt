//! The plan of a batch: what it makes of pages of which some are in memory.
#![tactic(auto)]

mod changes;
mod directory_pages;
mod drafts;
mod free_lists;
mod hints;
mod plans;
mod puts;
mod slots;

pub use changes::do_changes;
pub use directory_pages::{give_page, take_page};
pub use drafts::Draft;
pub use free_lists::FreeList;
pub use hints::Hints;
pub use plans::PlanFault;
