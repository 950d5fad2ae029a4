//! What a walk stops at.

use ct_base::{Bytes, Listed};

/// The places at which a walk stops, by the words that have an entry there. Where one of several words is enough, their places are gathered in one
/// list: so no step asks several words for the next place of one of them.
#[derive(Drop)]
pub enum Walk {
    /// Where a word has an entry: its length in one byte, and its bytes.
    Word(Bytes),
    /// At these places, which rise in the order of bytes, each once.
    Places(Listed<Bytes>),
    /// Where both walks stop.
    Both(Box<Walk>, Box<Walk>),
    /// Where the first stops, and not the second.
    Without(Box<Walk>, Box<Walk>),
}
