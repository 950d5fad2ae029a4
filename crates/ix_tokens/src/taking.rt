//! The rows of the entries of tokens of one length.

ghost use Rattle.std.specs.Prelude.{◌≡◌, ◌&&◌, ◌++◌, ◌∷◌, [], nat_lt, length, take, IfOk, OnOk};
ghost use Rattle.std.specs.Str.{is_utf8};
ghost use Rattle.ix_posting.specs.Forms.{number_form};
ghost use Rattle.ix_posting.specs.Lists.{posting_list};
ghost use Rattle.ix_posting.specs.Rows.{DocumentsRise};
ghost use Rattle.ix_rows.specs.Taking.{AreTaken};
ghost use Rattle.ix_tokens.specs.Rising.{EachRises};
ghost use Rattle.ix_tokens.specs.Scanned.{AreTakenOf, bytes_of_entries, is_matched, is_wanted_entry};
ghost use Rattle.ix_tokens.specs.Trying.{IsTried, known_of};

use ct_base::Memory;
use ix_posting::{EncodedRow, EncodedRows};
use ix_rows::rows_in;
use q_match::matches;
use q_tree::PatternBit;
use std::alloc::Global;
use std::str::from_utf8;

/// An entry: the rest of its key, and its value.
type Entry = (Vec<u8>, Vec<u8>);

fn is_utf8(bytes: &[u8]) -> bool
    ensures { result ≡ is_utf8 bytes.now }
{
    match from_utf8(bytes) {
        Ok(_) => true,
        Err(_) => false,
    }
}

/// Whether a token is a text, and has the pattern.
fn is_matched(alloc: Global, pattern: &[PatternBit], token: &[u8]) -> Result<bool, Memory>
    ensures { IfOk result (λ is. is ≡ is_matched pattern.now token.now) }
{
    if !is_utf8(token) {
        return Ok(false);
    }
    matches(alloc, pattern, token)
}

/// The literal, followed by these bytes.
fn token_of(alloc: Global, literal: &[u8], more: &[u8]) -> Result<Vec<u8>, Memory>
    ensures { IfOk result (λ token. token.items ≡ literal.now ++ more.now) }
{
    let mut token = Vec::from_slice(alloc, literal)?;
    token.extend_from_slice(more)?;
    Ok(token)
}

/// The bytes that followed the literal in the token that was tried last, and whether the token has the pattern, if one was tried.
#[derive(Drop)]
struct Tried {
    more: Vec<u8>,
    known: Option<bool>,
}

/// Whether the token that was tried last has the pattern, if these bytes followed the literal in it.
fn known_of(tried: &Tried, more: &[u8]) -> Option<bool>
    ensures { result ≡ known_of tried.now more.now }
{
    if tried.more.as_slice() == more {
        return tried.known;
    }
    None
}

/// Whether the literal, followed by these bytes, is a text and has the pattern. It is known already where that token was tried last.
fn is_matched_after(
    alloc: Global,
    pattern: &[PatternBit],
    literal: &[u8],
    tried: &mut Tried,
    more: &[u8],
) -> Result<bool, Memory>
    requires { IsTried pattern.now literal.now tried.old }
    ensures is { IfOk result (λ is. is ≡ is_matched pattern.now (literal.now ++ more.now)) }
    ensures tried { OnOk result (IsTried pattern.now literal.now tried.new) }
{
    if let Some(known) = known_of(tried, more) {
        return Ok(known);
    }
    let token = token_of(alloc, literal, more)?;
    let is = is_matched(alloc, pattern, &token)?;
    let more = Vec::from_slice(alloc, more)?;
    *tried = Tried {
        more,
        known: Some(is),
    };
    Ok(is)
}

/// Whether the rest of a key, after the literal, has `more` bytes of a token that has the pattern, and something of a document.
fn is_wanted_entry(
    alloc: Global,
    pattern: &[PatternBit],
    literal: &[u8],
    more: usize,
    tried: &mut Tried,
    rest: &[u8],
) -> Result<bool, Memory>
    requires { IsTried pattern.now literal.now tried.old }
    ensures is { IfOk result (λ is. is ≡ (nat_lt more (length rest.now) && is_matched pattern.now (literal.now ++ take more rest.now))) }
    ensures tried { OnOk result (IsTried pattern.now literal.now tried.new) }
{
    if more >= rest.len() {
        return Ok(false);
    }
    is_matched_after(alloc, pattern, literal, tried, &rest[..more])
}

/// The rows of one entry.
fn rows_of_entry(alloc: Global, rest: Vec<u8>, value: Vec<u8>) -> Result<EncodedRows<u32>, Memory>
    ensures rise { IfOk result (λ rows. DocumentsRise number_form 0 (posting_list rows)) }
    ensures taken { IfOk result (λ rows. AreTaken number_form ((rest.items, value.items) ∷ []) rows) }
{
    let mut alone = Vec::new(alloc);
    alone.push((rest, value))?;
    let rows = rows_in(alloc, alone)?;
    EncodedRows::of(alloc, rows)
}

/// The rows of the entries whose token has the pattern, each by itself. Its cost is the length of the entries, and for each token, whose
/// entries follow one another, the length of the pattern times that of the token.
pub(crate) fn rows_of_entries(
    alloc: Global,
    pattern: &[PatternBit],
    literal: &[u8],
    more: usize,
    entries: Vec<Entry>,
) -> Result<Vec<EncodedRows<u32>>, Memory>
    ensures rise { IfOk result (λ tokens. EachRises tokens.items) }
    ensures taken { IfOk result (λ tokens. AreTakenOf (is_wanted_entry pattern.now literal.now more) (bytes_of_entries entries.items) tokens.items) }
{
    let mut tokens = Vec::new(alloc);
    let mut tried = Tried {
        more: Vec::new(alloc),
        known: None,
    };
    for (rest, value) in entries {
        if is_wanted_entry(alloc, pattern, literal, more, &mut tried, &rest)? {
            tokens.push(rows_of_entry(alloc, rest, value)?)?;
        }
    }
    Ok(tokens)
}
