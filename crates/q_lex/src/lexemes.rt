//! The lexemes of queries.

use ct_base::Text;
use q_tree::{Relation, Word};

/// A word as it is written: plain characters alone are its spelling.
#[derive(Drop)]
pub struct Written {
    pub word: Word,
    pub plain: Option<Text>,
}

/// An operator between two queries, as it is written: a word or its sign. Of MINUS the two are kept apart: between queries both mean the same, but in a sum the sign `-` alone is the minus.
#[derive(Clone, Copy, Debug, PartialEq, Eq)]
pub enum Infix {
    /// OR or `|`.
    Or,
    /// AND or `&`.
    And,
    /// NOT or `~`.
    Not,
    /// The word MINUS.
    MinusWord,
    /// The sign `-`.
    MinusSign,
}

/// A lexeme, classified in the whole text.
#[derive(Drop)]
pub enum Lexeme {
    Word(Written),
    Operator(Infix),
    Equiv,
    Near,
    Within,
    Star,
    Greater,
    Open,
    Close,
    Comma,
    Define,
    Thes(Relation),
    /// A sign, a function or an operator that isn't in this profile.
    Refused,
    /// A `{` that isn't closed, a `}` by itself, or a `\` at the end.
    Bad,
}

/// A lexeme and where it stands.
#[derive(Drop)]
pub struct Placed {
    /// The place of its first byte in the text, from 1 on.
    pub place: u32,
    pub lexeme: Lexeme,
}
