//! What tests over keepers in memory share: names, texts of rows, and batches that are committed where a keeper may hold what they put.
#![tactic(auto)]

mod batches;

pub use batches::{are_entries, commit, is_entry, named, new_keeper, one_text};
