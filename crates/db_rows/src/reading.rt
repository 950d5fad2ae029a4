//! Reads the values of a row, each entry once.
#![tactic(auto, using(ct_keep::specs::laws::Composing::reads_on, ct_keep::specs::laws::Composing::reads_short))]

ghost use Rattle.std.specs.Prelude.{◌≡◌, ◌==◌, List, [], ◌∷◌, ◌++◌, IfOk, OnOk, Some, is_some, true};
ghost use Rattle.std.specs.List.{list_any, slice_get};
ghost use Rattle.std.specs.Map.{lookup};
ghost use Rattle.std.specs.Option.{option_map};
ghost use Rattle.ct_base.specs.declared.lists.Value.{Value as RowValue};
ghost use Rattle.ct_keep.specs.KeeperViews.{OnlyReads};
ghost use Rattle.ct_keep.specs.Looks.{no_looks, LooksAtMost};
ghost use Rattle.tb_table.specs.Tables.{numbers_of, text_in_column as row_text};
ghost use Rattle.db_state.specs.States.{Sees};
ghost use Rattle.db_rows.specs.Values.{row_values};
ghost use Rattle.db_rows.specs.Sources.{source_value};
ghost use Rattle.db_rows.specs.Reading.{IsReadOf, OverRow, source_looks, column_looks};
ghost use Rattle.db_rows.specs.Texts.{KeepsTexts, ReadsOnce, reads_among, shown_places, texts_among, texts_left};
ghost use Rattle.db_rows.specs.Walking.{with_met};

use crate::sources::Source;
use ct_base::{Memory, Name, RowKey, Text, Value};
use ct_keep::{KeepFault, Keeper};
use std::alloc::Global;
use tb_table::{number_row, text_of};

/// A text of a row that was read, with the place of its column; None where the row has none there.
type ReadText = (u8, Option<Text>);

/// What was read of a row: its numbers, and texts. Whoever asks for one of them again gets it from here.
#[derive(Drop)]
pub struct RowRead {
    numbers: Option<Vec<i64>>,
    texts: Vec<ReadText>,
}

/// What is to be shown of rows that are found.
#[derive(Drop)]
pub enum Shown {
    /// Nothing but their keys, or how many they are.
    Keys,
    /// Their keys, their numbers, and the texts of these columns.
    Texts(Vec<u8>),
}

impl RowRead {
    /// Nothing was read yet. It takes no memory.
    pub fn nothing(alloc: Global) -> RowRead
        ensures { (vs : List RowValue) → IsReadOf vs result }
    {
        RowRead {
            numbers: None,
            texts: Vec::new(alloc),
        }
    }

    /// Its numbers, and its texts of these columns.
    fn with_texts_of(self, alloc: Global, columns: &[u8]) -> Result<RowRead, Memory>
        ensures { IfOk result (λ kept. KeepsTexts columns.now self kept) }
    {
        let RowRead { numbers, texts } = self;
        let texts = texts_of_columns(alloc, texts, columns)?;
        Ok(RowRead { numbers, texts })
    }

    /// What is kept of it until the row is shown. It takes memory only for texts that are.
    pub(crate) fn kept(self, alloc: Global, shown: &Shown) -> Result<RowRead, Memory>
        ensures own { IfOk result (λ kept. (vs : List RowValue) → IsReadOf vs self → IsReadOf vs kept) }
        ensures left { IfOk result (λ kept. texts_left (shown_places shown.now) kept ≡ texts_left (shown_places shown.now) self) }
    {
        match shown {
            Shown::Keys => Ok(RowRead::nothing(alloc)),
            Shown::Texts(columns) => {
                let kept = self.with_texts_of(alloc, columns)?;
                Ok(kept)
            }
        }
    }
}

/// Whether a column is one of these.
fn is_among(column: u8, columns: &[u8]) -> bool
    ensures { result ≡ list_any (λ other. column == other) columns.now }
{
    columns.iter().any(|other| column == *other)
}

/// Puts a text, if it stays.
fn push_if(texts: &mut Vec<ReadText>, text: ReadText, stays: bool) -> Result<(), Memory>
    ensures { OnOk result (texts.new.items ≡ with_met stays text texts.old.items) }
{
    if stays {
        texts.push(text)?;
    }
    Ok(())
}

/// Of texts that were read those of these columns.
fn texts_of_columns(
    alloc: Global,
    texts: Vec<ReadText>,
    columns: &[u8],
) -> Result<Vec<ReadText>, Memory>
    ensures { IfOk result (λ kept. kept.items ≡ texts_among columns.now texts.items) }
{
    let mut kept = Vec::new(alloc);
    for text in texts {
        let stays = is_among(text.0, columns);
        push_if(&mut kept, text, stays)?;
    }
    Ok(kept)
}

/// The number at a place.
fn number_at(numbers: &[i64], place: usize) -> Option<i64>
    ensures { result ≡ slice_get numbers.now place }
{
    numbers.get(place).copied()
}

/// The numbers of a row; none where it isn't there. It reads no text and no posting, and never answers Full.
pub fn row_numbers<K: Keeper>(
    alloc: Global,
    keeper: &mut K,
    table: &Name,
    row: RowKey,
) -> Result<Vec<i64>, KeepFault>
    requires { (K.view keeper.old).ready }
    ensures numbers { Sees K.view keeper.old result (λ m numbers. numbers.items ≡ numbers_of (row_values m.tables table.now row.0)) }
    ensures reads { OnlyReads K.view keeper.old keeper.new result }
    ensures at_most { LooksAtMost K.view keeper.old keeper.new no_looks }
{
    match number_row(alloc, keeper, table, row)? {
        Some(numbers) => Ok(numbers),
        None => Ok(Vec::new(alloc)),
    }
}

/// The text of a column, where it was read.
fn known_text(texts: &[ReadText], column: u8) -> Result<Option<Option<Text>>, Memory>
    ensures { IfOk result (λ known. known ≡ lookup (λ place. column == place) texts.now) }
{
    for (place, text) in texts {
        if column == *place {
            return Ok(Some(text.clone()?));
        }
    }
    Ok(None)
}

/// Keeps a text that was read.
fn note_text(texts: &mut Vec<ReadText>, column: u8, text: &Option<Text>) -> Result<(), Memory>
    ensures { OnOk result (texts.new.items ≡ texts.old.items ++ (column, text.now) ∷ []) }
{
    let copy = text.clone()?;
    texts.push((column, copy))?;
    Ok(())
}

/// The number at a place among those of a row. They are read unless `read` has them; then `read` has them.
fn number_once<K: Keeper>(
    alloc: Global,
    keeper: &mut K,
    table: &Name,
    row: RowKey,
    read: &mut RowRead,
    place: usize,
) -> Result<Option<i64>, KeepFault>
    requires { (K.view keeper.old).ready }
    ensures number { OverRow K.view keeper.old table.now row.0 read.old (λ vs. IfOk result (λ number. number ≡ slice_get (numbers_of vs) place)) }
    ensures read { OverRow K.view keeper.old table.now row.0 read.old (λ vs. OnOk result (IsReadOf vs read.new)) }
    ensures kept { OnOk result (is_some read.new.numbers ≡ true) }
    ensures reads { OnlyReads K.view keeper.old keeper.new result }
    ensures at_most { LooksAtMost K.view keeper.old keeper.new no_looks }
    ensures once { ReadsOnce K.view keeper.old keeper.new read.old read.new result (λ places. true) }
{
    if let Some(numbers) = &read.numbers {
        return Ok(number_at(numbers, place));
    }
    let numbers = row_numbers(alloc, keeper, table, row)?;
    let number = number_at(&numbers, place);
    read.numbers = Some(numbers);
    Ok(number)
}

/// The text of a row in a column. It is read unless `read` has it, which then keeps it.
fn text_once<K: Keeper>(
    alloc: Global,
    keeper: &mut K,
    table: &Name,
    row: RowKey,
    read: &mut RowRead,
    column: u8,
) -> Result<Option<Text>, KeepFault>
    requires { (K.view keeper.old).ready }
    ensures text { OverRow K.view keeper.old table.now row.0 read.old (λ vs. IfOk result (λ text. text ≡ row_text vs column)) }
    ensures read { OverRow K.view keeper.old table.now row.0 read.old (λ vs. OnOk result (IsReadOf vs read.new)) }
    ensures kept { IfOk result (λ text. lookup (λ place. column == place) read.new.texts.items ≡ Some text) }
    ensures reads { OnlyReads K.view keeper.old keeper.new result }
    ensures at_most { LooksAtMost K.view keeper.old keeper.new (column_looks read.old column) }
    ensures once { ReadsOnce K.view keeper.old keeper.new read.old read.new result (λ places. list_any (λ place. column == place) places) }
{
    if let Some(text) = known_text(&read.texts, column)? {
        return Ok(text);
    }
    let text = text_of(alloc, keeper, table, column, row)?;
    note_text(&mut read.texts, column, &text)?;
    Ok(text)
}

/// The value of a row that comes from this place; None where the row has none. It reads the numbers of the row, or the text, unless
/// `read` has them, and nothing for the key.
pub fn column_value<K: Keeper>(
    alloc: Global,
    keeper: &mut K,
    table: &Name,
    row: RowKey,
    read: &mut RowRead,
    source: Source,
) -> Result<Option<Value>, KeepFault>
    requires { (K.view keeper.old).ready }
    ensures value { OverRow K.view keeper.old table.now row.0 read.old (λ vs. IfOk result (λ value. value ≡ source_value row.0 vs source)) }
    ensures read { OverRow K.view keeper.old table.now row.0 read.old (λ vs. OnOk result (IsReadOf vs read.new)) }
    ensures reads { OnlyReads K.view keeper.old keeper.new result }
    ensures at_most { LooksAtMost K.view keeper.old keeper.new (source_looks read.old source) }
    ensures once { ReadsOnce K.view keeper.old keeper.new read.old read.new result (λ places. reads_among places source) }
{
    match source {
        Source::Key => Ok(Some(Value::Number(row.0))),
        Source::Number(place) => {
            let number = number_once(alloc, keeper, table, row, read, place)?;
            Ok(number.map(|number| Value::Number(number)))
        }
        Source::Text(column) => {
            let text = text_once(alloc, keeper, table, row, read, column)?;
            Ok(text.map(|text| Value::Text(text)))
        }
        Source::Nothing => Ok(None),
    }
}
