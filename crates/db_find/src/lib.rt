//! What a text predicate finds: rows by their keys, each with its score.
#![tactic(auto)]

mod between;
mod cat_queries;
mod catalogues;
mod finding;
mod laws;
mod matching;
mod querying;
mod searches;
mod seeking;
mod structured;
mod thesauri;

pub use finding::{Found, find, find_in_context};
pub use laws::catalogues_find_word_rows;
pub use searches::{Search, search_in};
pub use seeking::needed_index;
