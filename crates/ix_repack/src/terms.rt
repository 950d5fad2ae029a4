//! The terms of an index.

ghost use Rattle.std.specs.Prelude.{◌≡◌, ◌≤◌, ◌↔◌, ℕ, List, IfOk, IfSome, IfNone, IsTrue, length};
ghost use Rattle.ix_rows.specs.WordRows.{IsWordTerm};
ghost use Rattle.ix_rows.specs.SpanRows.{section_term, IsSpanTerm};

use ct_base::{Bytes, Memory, Name};
use std::alloc::Global;

/// The greatest number of a stream.
const STREAM_LIMIT: u8 = 64;

/// A term under which an index has rows, by the bytes that stand in the keys of these between the index and their first document.
#[derive(Debug, Drop)]
pub enum Term {
    /// A stream and a token: the stream, how many bytes the token has, and these.
    Word(Bytes),
    /// A section: how many bytes its name has, and these.
    Section(Bytes),
}

/// The text behind its length in one byte. None where the bytes are anything else.
fn counted_text(bytes: &[u8]) -> Option<&[u8]>
    ensures some { IfSome result (λ text. bytes.now ≡ section_term text.now) }
    ensures short { IfSome result (λ text. length text.now ≤ 255) }
    ensures none { IfNone result ((text : List ℕ) → bytes.now ≡ section_term text → ⊥) }
{
    let (len, text) = bytes.split_first()?;
    if text.len() != usize::from(*len) {
        return None;
    }
    Some(text)
}

/// Whether the bytes are a stream and a token.
pub(crate) fn is_word_term(term: &[u8]) -> bool
    ensures { IsTrue result ↔ IsWordTerm term.now }
{
    let Some((stream, rest)) = term.split_first() else {
        return false;
    };
    match counted_text(rest) {
        None => false,
        Some(token) => *stream <= STREAM_LIMIT && !token.is_empty(),
    }
}

/// Whether the bytes are a section.
pub(crate) fn is_section_term(alloc: Global, term: &[u8]) -> Result<bool, Memory>
    ensures { IfOk result (λ is. IsTrue is ↔ IsSpanTerm term.now) }
{
    let Some(section) = counted_text(term) else {
        return Ok(false);
    };
    let name = Name::of_bytes(alloc, section)?;
    Ok(name.is_some())
}
