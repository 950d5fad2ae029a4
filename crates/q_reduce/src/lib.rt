//! Queries as they are looked for in an index.
#![tactic(auto)]

mod equivs;
mod faults;
mod keys;
mod laws;
mod naming;
mod operators;
mod patterns;
mod phrases;
mod reducing;
mod sections;
mod thesauri;
mod words;

pub use faults::ReduceFault;
pub use laws::{joined_key_laws, reduced_is_sound, stopwords_find_nothing, trimming_laws};
pub use naming::thesauri_in;
pub use reducing::{ReduceCtx, reduce};
pub use thesauri::NamedThesaurus;
