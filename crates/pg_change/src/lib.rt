//! From a plan of a batch in memory to the pages of its commit: what becomes of the directory, and the images of all changed pages.
#![tactic(auto)]

mod editing;

pub use editing::key_edits;

mod batch_commits;
mod images;

pub use batch_commits::{BatchNumbers, commit_batch};
pub use images::{DirectoryImage, DirectoryImages, directory_images};

mod planning;
mod rebuilding;

pub use planning::{PlannedBatch, plan_batch};
pub use rebuilding::{Rebuilt, rebuild};

mod batch_windows;
mod resting;

pub use batch_windows::{load_places, load_roomy, page_places};
pub use resting::{rest_all, resting_sheets};
