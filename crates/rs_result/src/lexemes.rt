//! The lexemes of descriptors.

use ct_base::Name;

/// A lexeme of a descriptor.
#[derive(Drop)]
pub(crate) enum Lexeme {
    Slash,
    Comma,
    /// A number up to 100,000; 0 for one that is greater.
    Number(u32),
    /// A word in lower case, spelt as a name: no longer one stands in any descriptor.
    Word(Name),
}
