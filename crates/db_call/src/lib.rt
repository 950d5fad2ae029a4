//! What the call of a procedure hands over: texts, and names and words that they spell; and the checks that come first.
#![tactic(auto)]

mod arguments;
mod checks;

pub use arguments::{are_texts, name_at, spells_word, spelt_name, text_at};
pub use checks::{first_fault, missing_name, taken_name};
