//! Reduced queries.

use ct_base::{Listed, Name, Text};
use tx_chars::Key;

/// A piece of a pattern.
#[derive(Drop)]
pub enum PatternBit {
    /// These characters, which are a key or a part of one.
    Chars(Text),
    /// Any one character.
    One,
    /// Any characters, or none.
    Many,
}

/// What a key has to look like: these pieces one after the other.
pub type Pattern = Listed<PatternBit>;

/// What may stand at one place of a phrase.
#[derive(Drop)]
pub enum Slot {
    /// Any word, a stopword too, whatever its streams.
    Any,
    /// A word with one of these keys, which rise, or with a key that has one of these patterns.
    Takes {
        keys: Listed<Key>,
        patterns: Listed<Pattern>,
    },
}

/// Slots that have to be met by words one after the other.
pub type Phrase = Listed<Slot>;

/// The phrases of a term, of which one has to occur.
pub type Phrases = Listed<Phrase>;

/// Where a part of a query is looked for.
#[derive(Drop)]
pub enum Place {
    /// In an instance of the zone of this name.
    Zone(Name),
    /// In the field of this stream, from 1 to 64.
    Field(u8),
    Sentence,
    Paragraph,
}

/// A step of a sum in postfix form.
#[derive(Clone, Copy, Debug, PartialEq, Eq)]
pub enum SumStep {
    /// A number, from 0 to 1000.
    Number(u16),
    /// 100, where the term occurs.
    Discrete,
    /// How often the term occurs, at most 100.
    Occurrence,
    Plus,
    Minus,
    Times,
}

/// A query as it is reduced for an index: with keys in place of words, and without stopwords.
#[derive(Drop)]
pub enum Flat {
    Term(Phrases),
    And(Box<Flat>, Box<Flat>),
    Or(Box<Flat>, Box<Flat>),
    Not(Box<Flat>, Box<Flat>),
    Minus(Box<Flat>, Box<Flat>),
    /// A weight in tenths, from 1 to 100.
    Weight(u8, Box<Flat>),
    /// The number that a score has to be above, from 0 to 100.
    Above(u8, Box<Flat>),
    /// Two to 16 terms, and how far apart they may be, from 0 to 100 words.
    Near {
        operands: Listed<Phrases>,
        span: u8,
        ordered: bool,
    },
    Within(Place, Box<Flat>),
    /// A term, and the sum in postfix form that its score is, with at most eight operators.
    Define(Phrases, Listed<SumStep>),
}
