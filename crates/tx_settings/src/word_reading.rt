//! Words read from bytes.

ghost use Rattle.std.specs.Prelude.{◌≡◌, true, false, IfOk, MatchOption};
ghost use Rattle.std.specs.Str.{is_utf8};
ghost use Rattle.ct_bytes.specs.Varints.{text_bytes};
ghost use Rattle.tx_settings.specs.PrefsBytes.{Reads, ReadsList, are_words, is_text, words_bytes};

use ct_base::{Memory, Text};
use ct_bytes::{read_text, read_varint};
use std::alloc::Global;

/// The text that the bytes are in UTF-8; None where they aren't UTF-8.
fn text_of(alloc: Global, bytes: &[u8]) -> Result<Option<Text>, Memory>
    ensures { IfOk result (λ found. MatchOption found (is_utf8 bytes.now ≡ false) (λ text. (text ≡ bytes.now) × (is_utf8 bytes.now ≡ true))) }
{
    match str::from_utf8(bytes) {
        Ok(text) => Ok(Some(Text::of(alloc, text)?)),
        Err(_) => Ok(None),
    }
}

/// The text that stands from `at` on after its length, and the place behind it.
pub(crate) fn read_word(
    alloc: Global,
    bytes: &[u8],
    at: usize,
) -> Result<Option<(Text, usize)>, Memory>
    ensures { IfOk result (Reads is_text text_bytes bytes.now at) }
{
    let Some((bytes, next)) = read_text(bytes, at) else {
        return Ok(None);
    };
    let Some(text) = text_of(alloc, bytes)? else {
        return Ok(None);
    };
    Ok(Some((text, next)))
}

/// The words that stand from `at` on, fewer than 2^32 texts in UTF-8 of fewer than 2^32 bytes each, and the place behind them.
/// None exactly where none stand there. Its cost is the length of what is read.
pub fn read_words(
    alloc: Global,
    bytes: &[u8],
    at: usize,
) -> Result<Option<(Vec<Text>, usize)>, Memory>
    ensures { IfOk result (ReadsList are_words words_bytes bytes.now at) }
{
    let Some((count, start)) = read_varint(bytes, at) else {
        return Ok(None);
    };
    let mut words = Vec::new(alloc);
    let mut place = start;
    'words: while words.len() < count as usize {
        let Some((word, next)) = read_word(alloc, bytes, place)? else {
            return Ok(None);
        };
        words.push(word)?;
        place = next;
    }
    Ok(Some((words, place)))
}
