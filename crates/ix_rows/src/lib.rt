//! Rows of postings of several documents: what the posting lists of an index are, how rows of entries spell them, what
//! holds of both where documents come and go, which rows are taken from entries, and how rows are split while their
//! documents come.
#![tactic(auto)]

mod firsts;
mod growing;
mod laws;
mod row_maps;
mod runs;
mod taking;
mod term_keys;
mod terms;

pub use firsts::put_firsts;
pub use laws::{
    dead_documents_stand, lists_have_one_split, new_documents_stand, rows_grow_by_term,
};
pub use row_maps::TermRows;
pub use runs::Run;
pub use taking::{rows_in, rows_of};
pub use terms::{put_section_term, put_word_term};
