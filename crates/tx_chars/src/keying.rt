//! Characters of words, and the key of some characters.

ghost use Rattle.std.specs.Prelude.{◌≡◌, ◌≤◌, ℕ, Bool, List, IfOk, IsAscii, length, filter, map, not, take};
ghost use Rattle.std.specs.Char.{to_ascii_lowercase};
ghost use Rattle.std.specs.Str.{chars};
ghost use Rattle.std.specs.String.{string_bytes};
ghost use Rattle.ct_base.specs.Limits.{token_limit};
ghost use Rattle.tx_chars.specs.KeyLaws.{DigitsAreDecimal, EmptyKeys, KeysAreUtf8, KeysAreWhole, KeysOfAscii, WordsAreAlphanumeric};
ghost use Rattle.tx_chars.specs.Keys.{is_word, is_word_category, is_digit, is_accent, folded, bared, cut_at, key_of};
ghost use Rattle.tx_chars.specs.LongestPrefix.{KeysAreLongestPrefixes};

use crate::keys::Key;
use caseless::default_case_fold_str;
use ct_base::{Memory, TOKEN_LIMIT, push_char, split_first};
use std::alloc::Global;
use ucd_category::{GeneralCategory, GeneralCategoryGroup};
use unicode_normalization::{to_nfc, to_nfd};

/// Whether the character stands in words: a letter, a number, or a nonspacing or spacing mark. In ASCII no table is asked.
pub fn is_word(c: char) -> bool
    ensures { result ≡ is_word c }
{
    if c.is_ascii() {
        return c.is_ascii_alphanumeric();
    }
    is_word_category(GeneralCategory::for_char(c))
}

fn is_word_category(category: GeneralCategory) -> bool
    ensures { result ≡ is_word_category category }
{
    GeneralCategoryGroup::Letter.contains(category)
        || GeneralCategoryGroup::Number.contains(category)
        || category == GeneralCategory::NonspacingMark
        || category == GeneralCategory::SpacingMark
}

/// Whether the character is a decimal digit. In ASCII no table is asked.
pub fn is_digit(c: char) -> bool
    ensures { result ≡ is_digit c }
{
    if c.is_ascii() {
        return c.is_ascii_digit();
    }
    GeneralCategory::for_char(c) == GeneralCategory::DecimalNumber
}

/// Whether the character is a mark that stands on a base letter.
fn is_accent(c: char) -> bool
    ensures { result ≡ is_accent c }
{
    GeneralCategory::for_char(c) == GeneralCategory::NonspacingMark
}

/// The key of a text: by full case folding unless case is kept, without nonspacing marks where the base letters alone are
/// asked for, in NFC, and cut at the last character boundary at or below 255 bytes. Its cost is linear in the length of the
/// text, but for the sorting of marks that follow one another; of an ASCII text no table is asked.
pub fn key(alloc: Global, text: &str, base_letter: bool, mixed_case: bool) -> Result<Key, Memory>
    ensures { IfOk result (λ k. k ≡ key_of base_letter mixed_case (chars text.now)) }
{
    if text.is_ascii() {
        ascii_key(alloc, text, mixed_case)
    } else {
        full_key(alloc, text, base_letter, mixed_case)
    }
}

/// The key of an ASCII text: nothing is decomposed, there is no mark, and folding is lower case.
fn ascii_key(alloc: Global, text: &str, mixed_case: bool) -> Result<Key, Memory>
    requires { IsAscii text.now }
    ensures { IfOk result (λ k. (base_letter : Bool) → k ≡ key_of base_letter mixed_case (chars text.now)) }
{
    let prefix = ascii_prefix(text.as_bytes());
    let bytes = if mixed_case {
        copied(alloc, prefix)?
    } else {
        lowered(alloc, prefix)?
    };
    Ok(Key::of(bytes))
}

/// The first bytes, as many as a key has room for.
fn ascii_prefix(bytes: &[u8]) -> &[u8]
    ensures { result.now ≡ take token_limit bytes.now }
{
    if bytes.len() <= TOKEN_LIMIT {
        bytes
    } else {
        bytes.split_at(TOKEN_LIMIT).0
    }
}

fn copied(alloc: Global, bytes: &[u8]) -> Result<Vec<u8>, Memory>
    ensures { IfOk result (λ v. v.items ≡ bytes.now) }
{
    let copy = Vec::from_slice(alloc, bytes)?;
    Ok(copy)
}

/// A copy in ASCII lower case.
fn lowered(alloc: Global, bytes: &[u8]) -> Result<Vec<u8>, Memory>
    ensures { IfOk result (λ v. v.items ≡ map to_ascii_lowercase bytes.now) }
{
    let mut copy = copied(alloc, bytes)?;
    copy.as_mut_slice().make_ascii_lowercase();
    Ok(copy)
}

/// The key of any text.
fn full_key(alloc: Global, text: &str, base_letter: bool, mixed_case: bool) -> Result<Key, Memory>
    ensures { IfOk result (λ k. k ≡ key_of base_letter mixed_case (chars text.now)) }
{
    let decomposed = to_nfd(alloc, text)?;
    let folded = fold(alloc, decomposed, mixed_case)?;
    let bared = bare(alloc, folded, base_letter)?;
    let composed = to_nfc(alloc, bared.as_str())?;
    cut(alloc, composed.as_str())
}

/// The text in full case folding, unless case is kept.
fn fold(alloc: Global, text: String, mixed_case: bool) -> Result<String, Memory>
    ensures { IfOk result (λ t. chars (string_bytes t) ≡ folded mixed_case (chars (string_bytes text))) }
{
    if mixed_case {
        return Ok(text);
    }
    let folded = default_case_fold_str(alloc, text.as_str())?;
    Ok(folded)
}

/// The text without its accents, where the base letters alone are asked for.
fn bare(alloc: Global, text: String, base_letter: bool) -> Result<String, Memory>
    ensures { IfOk result (λ t. chars (string_bytes t) ≡ bared base_letter (chars (string_bytes text))) }
{
    if !base_letter {
        return Ok(text);
    }
    without_accents(alloc, text.as_str())
}

fn without_accents(alloc: Global, text: &str) -> Result<String, Memory>
    ensures { IfOk result (λ t. chars (string_bytes t) ≡ filter (λ c. not (is_accent c)) (chars text.now)) }
{
    let mut kept = String::new(alloc);
    let mut rest = text;
    while let Some((c, after)) = split_first(rest) {
        if !is_accent(c) {
            push_char(&mut kept, c)?;
        }
        rest = after;
    }
    Ok(kept)
}

/// The characters at the beginning that have room.
fn cut(alloc: Global, text: &str) -> Result<Key, Memory>
    ensures { IfOk result (λ k. k ≡ cut_at token_limit (chars text.now)) }
{
    let mut kept = String::new(alloc);
    let mut room = TOKEN_LIMIT;
    let mut rest = text;
    while let Some((c, after)) = split_first(rest) {
        let length = c.len_utf8();
        if room < length {
            break;
        }
        push_char(&mut kept, c)?;
        room -= length;
        rest = after;
    }
    Ok(Key::of(kept.into_bytes()))
}

/// What holds of every key: it is the longest prefix of its text, at a character boundary, that has at most 255 bytes, so all
/// of a text that has no more; its bytes are UTF-8; it is empty exactly where its text is; and on ASCII it is the text in lower
/// case, or as it is where case is kept, cut at 255 bytes.
pub fn key_laws()
    ensures longest { KeysAreLongestPrefixes }
    ensures limit { (base_letter mixed_case : Bool) (text : List ℕ) → length (key_of base_letter mixed_case text) ≤ token_limit }
    ensures utf8 { KeysAreUtf8 }
    ensures whole { KeysAreWhole }
    ensures empty { EmptyKeys }
    ensures ascii { KeysOfAscii }
    ensures words { WordsAreAlphanumeric }
    ensures digits { DigitsAreDecimal }
{}
