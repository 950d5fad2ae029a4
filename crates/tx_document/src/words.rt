//! The words of a document.

ghost use Rattle.std.specs.Prelude.{◌≡◌, ◌+◌, ◌<◌, ◌^◌, IfOk, length};
ghost use Rattle.tx_document.specs.Documents.{key_unless_stop};
ghost use Rattle.tx_document.specs.Ranges.{word_at, words_at};

use crate::fields::{Field, streams_at};
use crate::views::WordView;
use ct_base::Memory;
use std::alloc::Global;
use tx_chars::Key;
use tx_lexer::Token;
use tx_stop::StopKeys;

/// The words that the tokens are, with the streams of these fields. Its cost is linear in the number of tokens, and for each of
/// them in the number of fields.
pub(crate) fn words(
    alloc: Global,
    stop: &StopKeys,
    fields: &[Field],
    tokens: &[Token],
) -> Result<Vec<WordView>, Memory>
    requires { length tokens.now < 2 ^ 32 }
    ensures { IfOk result (λ v. v.items ≡ words_at stop.now fields.now 0 tokens.now) }
{
    let mut words = Vec::new(alloc);
    let mut place = 0;
    let mut rest = tokens;
    while let [token, later @ ..] = rest {
        words.push(word_at(alloc, stop, fields, place, token)?)?;
        place += 1;
        rest = later;
    }
    Ok(words)
}

fn word_at(
    alloc: Global,
    stop: &StopKeys,
    fields: &[Field],
    place: u32,
    token: &Token,
) -> Result<WordView, Memory>
    requires { place + 1 < 2 ^ 32 }
    ensures { IfOk result (λ w. w ≡ word_at stop.now fields.now place token.now) }
{
    Ok(WordView {
        position: place + 1,
        key: key_unless_stop(stop, &token.key)?,
        streams: streams_at(alloc, fields, place as usize)?,
        start: token.start,
        end: token.end,
    })
}

/// A copy of the key, unless it is one of a stopword.
fn key_unless_stop(stop: &StopKeys, key: &Key) -> Result<Option<Key>, Memory>
    ensures { IfOk result (λ k. k ≡ key_unless_stop stop.now key.now) }
{
    if stop.has(key) {
        return Ok(None);
    }
    Ok(Some(key.clone()?))
}
