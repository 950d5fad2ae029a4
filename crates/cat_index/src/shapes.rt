//! Which entries of catalogues are well shaped, each by itself.

ghost use Rattle.std.specs.Prelude.{◌≡◌, ◌↔◌, ◌≤◌, ◌&&◌, nat_le, IfOk, IfSome, IsTrue, length};
ghost use Rattle.std.specs.Option.{option_map};
ghost use Rattle.std.specs.Str.{is_utf8};
ghost use Rattle.ct_base.specs.Limits.{sub_index_limit};
ghost use Rattle.ct_entry.specs.Keys.{IsRowPart};
ghost use Rattle.ct_entry.specs.declared.kinds.Kind.TheVariants as kind;
ghost use Rattle.cat_index.specs.Filings.{sub_text_limit};
ghost use Rattle.cat_index.specs.PartReadings.{AreSomeAtMost, IsWhatFollows, BeginsCounted, SplitsLastEight};
ghost use Rattle.cat_index.specs.Shapes.{AreSubValues, IsCatalogueShape, IsSubText, IsWordPart};

use crate::entries::catalogue_in;
use crate::filings::SUB_TEXT_LIMIT;
use ct_base::Memory;
use ct_entry::{Kind, is_row_part};
use std::alloc::Global;
use std::str::from_utf8;

/// The greatest number of a sub-index.
const SUB_INDEX_LIMIT: u8 = 16;

/// How many columns a sub-index has at most.
const SUB_COLUMN_LIMIT: u8 = 3;

/// How many bytes a number has in a key.
const NUMBER_LENGTH: usize = 8;

/// The bytes whose length is the first byte, and those behind them; None where there are too few.
fn split_counted(bytes: &[u8]) -> Option<(&[u8], &[u8])>
    ensures splits { BeginsCounted bytes.now (option_map (λ x. (x.0.now, x.1.now)) result) }
    ensures short { IfSome result (λ x. length x.0.now ≤ 255) }
{
    let [length, rest @ ..] = bytes else {
        return None;
    };
    rest.split_at_checked(usize::from(*length))
}

/// The eight last bytes, behind the others; None where there are fewer.
fn split_last_eight(bytes: &[u8]) -> Option<(&[u8], &[u8])>
    ensures { SplitsLastEight bytes.now (option_map (λ x. (x.0.now, x.1.now)) result) }
{
    if bytes.len() < NUMBER_LENGTH {
        return None;
    }
    Some(bytes.split_at(bytes.len() - NUMBER_LENGTH))
}

/// Whether the bytes are UTF-8.
fn is_utf8(bytes: &[u8]) -> bool
    ensures { result ≡ is_utf8 bytes.now }
{
    match from_utf8(bytes) {
        Ok(_) => true,
        Err(_) => false,
    }
}

/// Whether a column of a sub-index may have this text.
fn is_short_text(text: &[u8]) -> bool
    ensures { result ≡ (nat_le (length text.now) sub_text_limit && is_utf8 text.now) }
{
    text.len() <= SUB_TEXT_LIMIT && is_utf8(text)
}

/// What follows a number at the beginning of the bytes.
fn after_number(bytes: &[u8]) -> Option<&[u8]>
    ensures { IsWhatFollows IsRowPart bytes.now (option_map (λ rest. rest.now) result) }
{
    let Some((number, rest)) = bytes.split_at_checked(NUMBER_LENGTH) else {
        return None;
    };
    if is_row_part(number) {
        Some(rest)
    } else {
        None
    }
}

/// What follows a text at the beginning of the bytes.
fn after_text(bytes: &[u8]) -> Option<&[u8]>
    ensures { IsWhatFollows IsSubText bytes.now (option_map (λ rest. rest.now) result) }
{
    let Some((text, rest)) = split_counted(bytes) else {
        return None;
    };
    if is_short_text(text) {
        Some(rest)
    } else {
        None
    }
}

/// Whether these are the bytes of at most so many numbers and texts. Eight bytes may be a number, and may begin a text too: both
/// are tried, at each place.
fn are_items(bytes: Option<&[u8]>, most: u8) -> bool
    ensures { IsTrue result ↔ AreSomeAtMost most (option_map (λ b. b.now) bytes.entry) }
{
    let Some(bytes) = bytes else {
        return false;
    };
    if bytes.is_empty() {
        return true;
    }
    if most == 0 {
        return false;
    }
    if are_items(after_number(bytes), most - 1) {
        return true;
    }
    are_items(after_text(bytes), most - 1)
}

/// Whether these are the values in a key of the sub-index of this number.
fn are_sub_values(sub: u8, values: &[u8]) -> bool
    ensures { IsTrue result ↔ AreSubValues sub values.now }
{
    if sub == 0 {
        return values.is_empty();
    }
    if values.is_empty() {
        return false;
    }
    are_items(Some(values), SUB_COLUMN_LIMIT)
}

/// Whether a key may have this number of a sub-index, this word, these values and this row.
fn are_word_parts(sub: u8, word: &[u8], values: &[u8], row: &[u8]) -> bool
    ensures { IsTrue result ↔ ((sub ≤ sub_index_limit) × (1 ≤ length word.now) × IsRowPart row.now × AreSubValues sub values.now) }
{
    sub <= SUB_INDEX_LIMIT && !word.is_empty() && is_row_part(row) && are_sub_values(sub, values)
}

/// Whether the bytes are the rest of the key of a row's entry under a word.
fn is_word_part(part: &[u8]) -> bool
    ensures { IsTrue result ↔ IsWordPart part.now }
{
    let Some((sub, rest)) = part.split_first() else {
        return false;
    };
    let Some((word, behind)) = split_counted(rest) else {
        return false;
    };
    let Some((values, row)) = split_last_eight(behind) else {
        return false;
    };
    are_word_parts(*sub, word, values, row)
}

/// Whether these are the rest of the key of a row's entry under a word, and its value.
fn is_row_entry(part: &[u8], value: &[u8]) -> bool
    ensures { IsTrue result ↔ IsCatalogueShape kind.Catalogue part.now value.now }
{
    if !value.is_empty() {
        return false;
    }
    is_word_part(part)
}

/// Whether these are the rest of the key of a catalogue, and its entry.
fn is_catalogue_entry(alloc: Global, part: &[u8], value: &[u8]) -> Result<bool, Memory>
    ensures { IfOk result (λ is. IsTrue is ↔ IsCatalogueShape kind.Indexes part.now value.now) }
{
    let Some(_catalogue) = catalogue_in(alloc, value)? else {
        return Ok(false);
    };
    Ok(part.is_empty())
}

/// Whether a key of this kind may have this rest, and an entry of a catalogue under it this value. No other entry is looked at:
/// there may be no such table, column or row.
///
/// Its cost is the length of both.
pub fn is_catalogue_shape(
    alloc: Global,
    kind: Kind,
    part: &[u8],
    value: &[u8],
) -> Result<bool, Memory>
    ensures { IfOk result (λ is. IsTrue is ↔ IsCatalogueShape kind part.now value.now) }
{
    match kind {
        Kind::Indexes => is_catalogue_entry(alloc, part, value),
        Kind::Catalogue => Ok(is_row_entry(part, value)),
        _ => Ok(false),
    }
}
