//! What is read of a document.

use ct_base::{Bytes, Listed, Name};
use tx_chars::Key;

/// A word of a document.
#[derive(Debug, Drop)]
pub struct WordView {
    /// Its number among the words, from 1 on.
    pub position: u32,
    /// None for a stopword.
    pub key: Option<Key>,
    /// The streams that it is in, rising: 0 is the main one, the others are the fields.
    pub streams: Bytes,
    /// The place of its first byte.
    pub start: u32,
    /// The place behind its last byte.
    pub end: u32,
}

/// Words, in their order.
pub type WordViews = Listed<WordView>;

/// An instance of a section: the positions of its first and last words.
#[derive(Debug, Drop)]
pub struct SectionView {
    pub section: Name,
    /// The position of its first word, from 1 on.
    pub first: u32,
    /// The position of its last word.
    pub last: u32,
}

/// Instances, in the order of their names' bytes, then of first and last; each once.
pub type SectionViews = Listed<SectionView>;

/// A document as it is indexed: its words in their order, and the instances of its zones, sentences and paragraphs.
#[derive(Debug, Drop)]
pub struct DocView {
    pub words: WordViews,
    pub sections: SectionViews,
}
