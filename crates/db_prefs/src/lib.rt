//! The procedures that define lexer preferences, stoplists, section groups and index sets.
#![tactic(auto)]

mod arguments;
mod attributes;
mod creating;
mod defining;
mod lookups;
mod sections;
mod special_sections;
mod stopwords;
mod sub_indexes;

pub use defining::define;
