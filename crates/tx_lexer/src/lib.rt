//! The tokens of a text.
#![tactic(auto)]

mod char_sets;
mod endings;
mod laws;
mod lexing;
mod options;
mod roles;
mod runs;
mod tokens;

pub use char_sets::CharSet;
pub use laws::{ascii_tokens, in_order, runs_are_exact, token_keys};
pub use lexing::{Lexer, tokens_by};
pub use options::LexerOptions;
pub use roles::Role;
pub use tokens::Token;
