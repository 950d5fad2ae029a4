//! The terms of a thesaurus.

ghost use Rattle.std.specs.Prelude.{◌≡◌, true, false, IfOk, bytes_eq};
ghost use Rattle.std.specs.Str.{chars, IsUtf8};
ghost use Rattle.tx_chars.specs.Keys.{key_of};
ghost use Rattle.th_graph.specs.Rising.{is_less};
ghost use Rattle.th_graph.specs.Terms.{IsTerm, utf8_length, has_length_of_term, term_of};

use crate::trimming::squeezed;
use ct_base::{Memory, TOKEN_LIMIT, Text};
use std::alloc::Global;
use std::marker::Model;
use std::str::from_utf8;
use tx_chars::{Key, key};

/// A term of a thesaurus, seen as its bytes, which are 1 to 255 of UTF-8.
#[derive(Clone, Debug, Drop)]
pub struct Term {
    text: Text,
}

impl Model for Term {
    ghost use Rattle.std.specs.Prelude.{ℕ, List};
    ghost use Rattle.th_graph.specs.Terms.{IsTerm};

    ghost Value = { List ℕ };

    ghost view = { λ t. t.text };

    ghost invariant = { λ t. IsTerm t.text };
}

/// How many bytes the text has.
fn bytes_in(text: &str) -> usize
    ensures { result ≡ utf8_length (chars text.now) }
{
    text.len()
}

/// Whether the text has 1 to 255 bytes.
fn has_length_of_term(text: &str) -> bool
    ensures { result ≡ has_length_of_term (chars text.now) }
{
    let bytes = bytes_in(text);
    1 <= bytes && bytes <= TOKEN_LIMIT
}

/// The key of a text as a term: without regard to case, and with its accents.
fn key_as_term(alloc: Global, text: &str) -> Result<Term, Memory>
    requires { has_length_of_term (chars text.now) ≡ true }
    ensures { IfOk result (λ t. t ≡ key_of false false (chars text.now)) }
{
    let key = text_key(alloc, text)?;
    term_of_key(alloc, &key)
}

/// The key of a text, without regard to case and with its accents. That of a text which isn't empty isn't empty either.
fn text_key(alloc: Global, text: &str) -> Result<Key, Memory>
    requires { has_length_of_term (chars text.now) ≡ true }
    ensures key { IfOk result (λ k. k ≡ key_of false false (chars text.now)) }
    ensures term { IfOk result IsTerm }
    ensures text { IfOk result IsUtf8 }
{
    key(alloc, text, false, false)
}

/// A copy of a key as a term.
fn term_of_key(alloc: Global, key: &Key) -> Result<Term, Memory>
    requires term { IsTerm key.now }
    requires text { IsUtf8 key.now }
    ensures { IfOk result (λ t. t ≡ key.now) }
{
    match from_utf8(key.as_slice()) {
        Ok(text) => Ok(Term {
            text: Text::of(alloc, text)?,
        }),
        Err(_) => unreachable!(),
    }
}

impl Term {
    /// The term that a text stands for: the key, without regard to case and with its accents, of the text with one blank in place of each
    /// run of white space and none at its ends. None where the text so squeezed is empty or has over 255 bytes. Its cost is linear in the
    /// length of the text.
    pub fn of(alloc: Global, text: &str) -> Result<Option<Term>, Memory>
        ensures { IfOk result (λ found. found ≡ term_of (chars text.now)) }
    {
        let squeezed = squeezed(alloc, text)?;
        if !has_length_of_term(squeezed.as_str()) {
            return Ok(None);
        }
        let term = key_as_term(alloc, squeezed.as_str())?;
        Ok(Some(term))
    }

    /// A term of a store, which has 1 to 255 bytes, just as it is: neither squeezed nor keyed again, and without a copy.
    pub fn stored(text: Text) -> Term
        requires { IsTerm text }
        ensures { result ≡ text }
    {
        Term { text }
    }

    /// Its text.
    pub fn as_str(&self) -> &str
        ensures text { result.now ≡ self.now }
        ensures term { IsTerm self.now }
    {
        self.text.as_str()
    }

    /// Whether both terms have the same bytes.
    pub(crate) fn is(&self, other: &Term) -> bool
        ensures { result ≡ bytes_eq self.now other.now }
    {
        self.as_str() == other.as_str()
    }

    /// Whether it is less than another, in the order of bytes.
    pub(crate) fn is_less(&self, other: &Term) -> bool
        ensures { result ≡ is_less self.now other.now }
    {
        self.as_str()
            .as_bytes()
            .cmp(other.as_str().as_bytes())
            .is_lt()
    }
}
