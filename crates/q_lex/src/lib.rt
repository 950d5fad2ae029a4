//! The lexemes of query texts, and what their words may stand for.
#![tactic(auto)]

mod laws;
mod lexemes;
mod lexing;
mod scanning;
mod words;

pub use laws::one_list_of_lexemes;
pub use lexemes::{Infix, Lexeme, Placed, Written};
pub use scanning::{bytes_in, is_too_deep, lexemes_of};
pub use words::{atom, flag, is_foreign, is_plain, is_plus, read_name, tenths_in, whole_in};
