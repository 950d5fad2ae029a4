//! The pages of a store file that a batch may change, in memory, and what they say of the pages that aren't.
#![tactic(auto)]

mod gathering;
mod loading;
mod roomy;
mod sheets;
mod unloading;

pub use gathering::load_pages;
pub use loading::load_page;
pub use roomy::is_roomy;
pub use sheets::Sheet;
pub use unloading::{rest, rest_pages, unload};
