//! What a row has in a catalogue.

ghost use Rattle.std.specs.Prelude.{◌≡◌, ◌≤◌, ◌++◌, ◌∷◌, ◌^◌, [], true, length, map, Some, IfOk, OnOk};
ghost use Rattle.std.specs.List.{flat_map, list_all, slice_get};
ghost use Rattle.std.specs.Option.{option_map, option_and_then};
ghost use Rattle.ct_base.specs.declared.lists.Value.TheVariants.{Text as TextValue};
ghost use Rattle.ct_base.specs.Limits.{sub_index_limit};
ghost use Rattle.tx_settings.specs.Attributes.{can_be_set};
ghost use Rattle.ct_entry.specs.Keys.{IsToken};
ghost use Rattle.ct_entry.specs.Lists.{EachIs};
ghost use Rattle.tx_sets.specs.Sets.{sub_column_limit};
ghost use Rattle.tb_table.specs.Tables.{as_text, text_in_column};
ghost use Rattle.cat_index.specs.Filings.{IsShortOrNone, fit_sub_index, main_words, text_words, value_bytes};
ghost use Rattle.cat_index.specs.Catalogues.{filing_at, value_at};
ghost use Rattle.cat_index.specs.Shapes.{AreItems, AreValues, IsFiling, IsItem};

use ct_base::{Bytes, Listed, Memory, RowKey, Text, Value};
use ct_bytes::row_key_bytes;
use std::alloc::Global;
use tx_chars::Key;
use tx_document::{Entry, analyse};
use tx_settings::Prefs;

/// How many bytes a text in a column of a sub-index has at most.
pub(crate) const SUB_TEXT_LIMIT: usize = 100;

/// How many bytes of text are read: far more than a text of a table has.
const TEXT_LIMIT: usize = 1 << 19;

/// What a row has in a catalogue: its words, and for each sub-index, the plain one first, the values of its columns as they stand
/// in keys.
#[derive(Debug, Drop)]
pub struct Filing {
    pub words: Listed<Key>,
    pub values: Listed<Bytes>,
}

/// The tokens of the entries in the main stream, without a copy.
fn main_words(alloc: Global, entries: Vec<Entry>) -> Result<Vec<Key>, Memory>
    ensures { IfOk result (λ words. words.items ≡ main_words entries.items) }
{
    let mut words = Vec::new(alloc);
    for entry in entries {
        if entry.stream == 0 {
            words.push(entry.token)?;
        }
    }
    Ok(words)
}

/// The distinct words that a text of at most 2^19 bytes has in the main stream, in the order of their bytes.
///
/// Its cost is that of reading the text, and of a logarithm for each word.
fn words_of(alloc: Global, prefs: &Prefs, text: &str) -> Result<Vec<Key>, Memory>
    requires short { length text.now ≤ 2 ^ 19 }
    requires set { can_be_set prefs.now.lexer ≡ true }
    ensures words { IfOk result (λ words. words.items ≡ text_words prefs.now (Some text.now)) }
    ensures tokens { IfOk result (λ words. EachIs IsToken words.items) }
{
    prefs.keep_rules();
    let document = analyse(alloc, prefs, text)?;
    let entries = document.entries(alloc)?;
    main_words(alloc, entries)
}

/// Adds a text after its length in one byte; one of over 100 bytes counts as the empty text.
fn put_text(out: &mut Vec<u8>, text: &[u8]) -> Result<(), Memory>
    ensures { OnOk result (out.new.items ≡ out.old.items ++ value_bytes (Some (TextValue text.now))) }
{
    if text.len() > SUB_TEXT_LIMIT {
        out.push(0)?;
        return Ok(());
    }
    out.push(text.len() as u8)?;
    out.extend_from_slice(text)?;
    Ok(())
}

/// Adds a value as it stands in a key.
fn put_value(out: &mut Vec<u8>, value: Option<&Value>) -> Result<(), Memory>
    ensures bytes { OnOk result (out.new.items ≡ out.old.items ++ value_bytes (option_map (λ v. v.now) value.entry)) }
    ensures item { IsItem (value_bytes (option_map (λ v. v.now) value.entry)) }
{
    match value {
        None => out.extend_from_slice(&row_key_bytes(RowKey(0)))?,
        Some(Value::Number(number)) => out.extend_from_slice(&row_key_bytes(RowKey(*number)))?,
        Some(Value::Text(text)) => put_text(out, text.as_str().as_bytes())?,
    }
    Ok(())
}

/// The value at this place, counted from 0.
fn value_got(values: &[Value], place: usize) -> Option<&Value>
    ensures { option_map (λ v. v.now) result ≡ slice_get values.now place }
{
    values.get(place)
}

/// Adds the value of a row in a column, as it stands in a key.
fn put_value_at(
    out: &mut Vec<u8>,
    key: RowKey,
    values: &[Value],
    place: usize,
) -> Result<(), Memory>
    ensures bytes { OnOk result (out.new.items ≡ out.old.items ++ value_bytes (value_at key.0 values.now place)) }
    ensures item { IsItem (value_bytes (value_at key.0 values.now place)) }
{
    if place == 0 {
        out.extend_from_slice(&row_key_bytes(key))?;
        return Ok(());
    }
    put_value(out, value_got(values, place - 1))
}

/// The values of a row in the columns of a sub-index as they stand in a key, one after the other.
fn values_bytes(
    alloc: Global,
    key: RowKey,
    values: &[Value],
    places: &[usize],
) -> Result<Bytes, Memory>
    requires { fit_sub_index places.now ≡ true }
    ensures bytes { IfOk result (λ bytes. bytes ≡ flat_map value_bytes (map (value_at key.0 values.now) places.now)) }
    ensures items { IfOk result (AreItems sub_column_limit) }
{
    let mut bytes = Vec::new(alloc);
    let mut rest = places;
    'each: while let Some((place, later)) = rest.split_first() {
        put_value_at(&mut bytes, key, values, *place)?;
        rest = later;
    }
    Ok(Listed::of(bytes))
}

/// The same of the plain sub-index, and of each other from the first on.
fn all_values(
    alloc: Global,
    key: RowKey,
    values: &[Value],
    places: &[Listed<usize>],
) -> Result<Vec<Bytes>, Memory>
    requires { list_all fit_sub_index places.now ≡ true }
    ensures bytes { IfOk result (λ all. all.items ≡ [] ∷ map (flat_map value_bytes) (map (map (value_at key.0 values.now)) places.now)) }
    ensures values { IfOk result (λ all. AreValues 0 all.items) }
{
    let mut all = Vec::new(alloc);
    all.push(Listed::empty(alloc))?;
    let mut rest = places;
    'each: while let Some((first, later)) = rest.split_first() {
        let bytes = values_bytes(alloc, key, values, first.as_slice())?;
        all.push(bytes)?;
        rest = later;
    }
    Ok(all)
}

/// The text that a value is.
fn as_text(value: Option<&Value>) -> Option<&Text>
    ensures { option_map (λ t. t.now) result ≡ option_and_then as_text (option_map (λ v. v.now) value.entry) }
{
    match value {
        Some(Value::Text(text)) => Some(text),
        Some(Value::Number(_)) | None => None,
    }
}

/// The text of a row in a column, if a text stands there.
fn text_at(values: &[Value], column: u8) -> Option<&Text>
    ensures { option_map (λ t. t.now) result ≡ text_in_column values.now column }
{
    if column == 0 {
        return None;
    }
    as_text(value_got(values, column as usize - 1))
}

/// The words of a text, if there is one; none of one of over 2^19 bytes, which no table has.
fn words_in(alloc: Global, prefs: &Prefs, text: Option<&Text>) -> Result<Vec<Key>, Memory>
    requires { can_be_set prefs.now.lexer ≡ true }
    ensures words { IsShortOrNone (option_map (λ t. t.now) text.entry) → IfOk result (λ words. words.items ≡ text_words prefs.now (option_map (λ t. t.now) text.entry)) }
    ensures tokens { IfOk result (λ words. EachIs IsToken words.items) }
{
    match text {
        Some(text) if text.as_str().len() <= TEXT_LIMIT => words_of(alloc, prefs, text.as_str()),
        _ => Ok(Vec::new(alloc)),
    }
}

/// What a row with this key and these other values has in a catalogue on this column that reads texts so, and has sub-indexes of
/// the columns at these places, from the first on. A text of over 2^19 bytes, which no table has, has no words here.
///
/// Its cost is that of reading the text and of copying the values, and of a logarithm for each word.
pub fn row_filing(
    alloc: Global,
    prefs: &Prefs,
    column: u8,
    places: &[Listed<usize>],
    key: RowKey,
    values: &[Value],
) -> Result<Filing, Memory>
    requires set { can_be_set prefs.now.lexer ≡ true }
    requires few { length places.now ≤ sub_index_limit }
    requires each { list_all fit_sub_index places.now ≡ true }
    ensures filing { IsShortOrNone (text_in_column values.now column) → IfOk result (λ w. w ≡ filing_at prefs.now column places.now key.0 values.now) }
    ensures fits { IfOk result IsFiling }
{
    let text = text_at(values, column);
    let words = Listed::of(words_in(alloc, prefs, text)?);
    let values = Listed::of(all_values(alloc, key, values, places)?);
    Ok(Filing { words, values })
}
