//! Characters of words, and the keys under which words are found.
#![tactic(auto)]

mod keying;
mod keys;

pub use keying::{is_digit, is_word, key, key_laws};
pub use keys::Key;
