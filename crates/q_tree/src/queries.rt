//! Queries as they are written.

ghost use Rattle.std.specs.Prelude.{◌≡◌};
ghost use Rattle.q_tree.specs.Limits.{has_wildcard};

use crate::flats::SumStep;
use ct_base::{Listed, Name, Text};

/// A piece of a word.
#[derive(Drop)]
pub enum WordBit {
    Chars(Text),
    /// Any one character, which is written `_`.
    One,
    /// Any characters, or none, which is written `%`.
    Many,
}

/// A word of a query text.
#[derive(Drop)]
pub struct Word {
    /// The place of its first byte in the text, from 1 on.
    pub place: u32,
    pub bits: Listed<WordBit>,
}

impl Word {
    /// Whether a wildcard stands in it. Its cost is linear in the number of its pieces.
    pub fn has_wildcard(&self) -> bool
        ensures { result ≡ has_wildcard self.now.bits }
    {
        let mut rest = self.bits.as_slice();
        while let [bit, later @ ..] = rest {
            match bit {
                WordBit::Chars(_) => rest = later,
                WordBit::One | WordBit::Many => return true,
            }
        }
        false
    }
}

/// The words of which one may stand at a place of a phrase: those that `=` joins.
pub type WordSlot = Listed<Word>;

/// How terms of a thesaurus are related.
#[derive(Clone, Copy, Debug, PartialEq, Eq)]
pub enum Relation {
    Syn,
    Broader,
    Narrower,
    Preferred,
}

/// A phrase, or the terms that a thesaurus has for one.
#[derive(Drop)]
pub enum Leaf {
    /// At least one slot, and in each at least one word.
    Phrase(Listed<WordSlot>),
    Thes {
        relation: Relation,
        /// The words of the term, at least one and without wildcards.
        words: Listed<Word>,
        /// How many steps are gone at most, from 1 to 99; of synonyms and preferred terms it is 1.
        level: u8,
        thesaurus: Name,
    },
}

/// An operator between two queries.
#[derive(Clone, Copy, Debug, PartialEq, Eq)]
pub enum Op {
    Or,
    And,
    Not,
    Minus,
}

/// A query as it is written. An operand of a nearness or of a sum is the list of its phrases.
#[derive(Drop)]
pub enum Query {
    Leaf(Leaf),
    And(Box<Query>, Box<Query>),
    Or(Box<Query>, Box<Query>),
    Not(Box<Query>, Box<Query>),
    Minus(Box<Query>, Box<Query>),
    /// A weight in tenths, from 1 to 100.
    Weight(u8, Box<Query>),
    /// The number that a score has to be above, from 0 to 100.
    Above(u8, Box<Query>),
    /// Two to 16 operands, and how far apart they may be, from 0 to 100 words.
    Near {
        operands: Listed<Listed<Leaf>>,
        span: u8,
        ordered: bool,
    },
    /// In the section of this name.
    Within(Name, Box<Query>),
    /// An operand, and the sum in postfix form that its score is, with at most eight operators.
    Define(Listed<Leaf>, Listed<SumStep>),
}
