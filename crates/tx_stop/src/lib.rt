//! Stopwords by their keys.
#![tactic(auto)]

mod laws;
mod rules;
mod searching;
mod stopping;

pub use laws::stop_keys_are_those_of_words;
pub use rules::STOP_LIMIT;
pub use stopping::StopKeys;
