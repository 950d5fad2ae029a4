//! The indexes on a table, as changes of its rows need them, and the values of rows that they need.
#![tactic(auto, using(ct_keep::specs::laws::Composing::reads_on, ct_keep::specs::laws::Composing::reads_short))]

ghost use Rattle.std.specs.Prelude.{◌≡◌, ◌≤◌, IfOk, true, map};
ghost use Rattle.std.specs.List.{list_all};
ghost use Rattle.std.specs.Option.{option_map};
ghost use Rattle.ct_keep.specs.Content.{after, weight};
ghost use Rattle.ct_keep.specs.KeeperViews.{Finds, OnlyReads};
ghost use Rattle.ct_entry.specs.Changes.{spell};
ghost use Rattle.ix_indexes.specs.Noting.{AllCanTell, AreNotedOf, HasShortTexts, any_needs_values, noted_indexes};
ghost use Rattle.db_state.specs.Shapes.{AreStoreChanges};
ghost use Rattle.db_state.specs.States.{OverStates};
ghost use Rattle.db_change.specs.Inserting.{kept_value};
ghost use Rattle.db_change.specs.Updating.{updated_values as values_changed, value_after as value_then};
ghost use Rattle.db_change.specs.Noting.{AreNoted, AreValuesOf, WhereTable, is_short_value, lost_changes, noted_on};

use crate::updating::set_in;
use ct_base::{Memory, Name, RowKey, Text, Value};
use ct_keep::{Batch, KeepFault, Keeper};
use db_names::indexes_of;
use ix_indexes::{TableIndex, needs_values, table_indexes, untidy_notes};
use st_parse::{Assign, Operand, Whole};
use std::alloc::Global;
use tb_table::Column;

/// How long a text may be that is read into an index. Each text of a table is shorter.
const READ_LIMIT: usize = 1 << 19;

/// The indexes on a table with these columns.
///
/// Its cost is that of the entries of all indexes, and a look-up for each catalogue on the table. It never answers Full.
pub(crate) fn indexes_on<K: Keeper>(
    alloc: Global,
    keeper: &mut K,
    table: &Name,
    columns: &[Column],
) -> Result<Vec<TableIndex>, KeepFault>
    requires { (K.view keeper.old).ready }
    ensures indexes { WhereTable K.view keeper.old table.now columns.now (λ m c x. IfOk result (AreNoted (noted_on m.indexes table.now))) }
    ensures can_tell { IfOk result (λ found. AllCanTell found.items) }
    ensures reads { OnlyReads K.view keeper.old keeper.new result }
{
    let heads = indexes_of(alloc, keeper, table)?;
    table_indexes(alloc, keeper, &heads, columns)
}

/// The changes by which each of these indexes that is tidy is so no more, since these rows are lost: none where there is no row.
///
/// It takes a look-up for each CONTEXT index. What it puts is as long as what was there. It never answers Full.
pub(crate) fn lost_notes<K: Keeper>(
    alloc: Global,
    keeper: &mut K,
    indexes: &[TableIndex],
    rows: &[RowKey],
) -> Result<Batch, KeepFault>
    requires { (K.view keeper.old).ready }
    ensures changes { OverStates K.view keeper.old (λ m c. AreNotedOf m.indexes (noted_indexes indexes.now) → IfOk result (λ notes. notes ≡ spell (lost_changes c m (noted_indexes indexes.now) (map (λ row. row.0) rows.now)))) }
    ensures light { Finds K.view keeper.old result (λ m notes. weight (after notes m) ≤ weight m) }
    ensures shaped { IfOk result AreStoreChanges }
    ensures reads { OnlyReads K.view keeper.old keeper.new result }
{
    if rows.is_empty() {
        return Ok(Batch::new(alloc));
    }
    let notes = untidy_notes(alloc, keeper, indexes)?;
    Ok(notes)
}

// ---- the values of a row that is there

/// Whether a value is no text that is too long to be read.
fn is_short(value: &Value) -> bool
    ensures { result ≡ is_short_value value.now }
{
    match value {
        Value::Number(_) => true,
        Value::Text(text) => text.as_str().len() <= READ_LIMIT,
    }
}

/// Whether each value is so.
fn are_short(values: &[Value]) -> bool
    ensures { result ≡ list_all is_short_value values.now }
{
    values.iter().all(|value| is_short(value))
}

/// The values where each text among them can be read, and else none. No state has a text that can't, but a store that stands for no
/// state may.
fn short_or_none(alloc: Global, values: Vec<Value>) -> Vec<Value>
    ensures short { HasShortTexts result.items }
    ensures same { HasShortTexts values.items → result.items ≡ values.items }
{
    if are_short(values.as_slice()) {
        values
    } else {
        Vec::new(alloc)
    }
}

/// The values of a row of a table with these columns, but for its key, where one of the indexes needs them; else none.
///
/// Where no index is a catalogue nothing is read. Else it takes a look-up for the row's numbers, and one for each of its texts. It
/// never answers Full.
pub(crate) fn values_needed<K: Keeper>(
    alloc: Global,
    keeper: &mut K,
    indexes: &[TableIndex],
    table: &Name,
    columns: &[Column],
    row: RowKey,
) -> Result<Vec<Value>, KeepFault>
    requires { (K.view keeper.old).ready }
    ensures values { WhereTable K.view keeper.old table.now columns.now (λ m c x. any_needs_values indexes.now ≡ true → IfOk result (AreValuesOf x row.0)) }
    ensures short { IfOk result (λ values. HasShortTexts values.items) }
    ensures reads { OnlyReads K.view keeper.old keeper.new result }
{
    if !needs_values(indexes) {
        return Ok(short_or_none(alloc, Vec::new(alloc)));
    }
    let values = cat_index::row_values(alloc, keeper, table, columns, row)?;
    Ok(short_or_none(alloc, values))
}

// ---- the values of a row that is to come

/// What a row keeps of a value.
fn kept_copy(alloc: Global, value: &Operand) -> Result<Value, Memory>
    ensures { IfOk result (λ kept. kept ≡ kept_value value.now) }
{
    match value {
        Operand::Text(text) => Ok(Value::Text(Text::of(alloc, text.as_str())?)),
        Operand::Number(Whole::Fits(number)) => Ok(Value::Number(*number)),
        Operand::Number(Whole::Beyond) => Ok(Value::Number(0)),
    }
}

/// What a row keeps of each of these values.
fn kept_copies(alloc: Global, values: &[Operand]) -> Result<Vec<Value>, Memory>
    ensures { IfOk result (λ kept. kept.items ≡ map kept_value values.now) }
{
    let mut kept = Vec::new(alloc);
    for value in values {
        kept.push(kept_copy(alloc, value)?)?;
    }
    Ok(kept)
}

/// What a row keeps of each of these values, where one of the indexes needs it; else none.
pub(crate) fn new_values(
    alloc: Global,
    indexes: &[TableIndex],
    values: &[Operand],
) -> Result<Vec<Value>, Memory>
    ensures { any_needs_values indexes.now ≡ true → IfOk result (λ kept. kept.items ≡ map kept_value values.now) }
{
    if !needs_values(indexes) {
        return Ok(Vec::new(alloc));
    }
    kept_copies(alloc, values)
}

/// The value of a column after the UPDATE: what is set, or what it was.
fn value_after(alloc: Global, set: Option<&Operand>, old: &Value) -> Result<Value, Memory>
    ensures { IfOk result (λ value. value ≡ value_then (option_map (λ v. v.now) set.entry) old.now) }
{
    match set {
        Some(value) => kept_copy(alloc, value),
        None => Ok(old.clone()?),
    }
}

/// The values of a row in these columns after the UPDATE, by those before. Its cost is the number of columns times that of what is
/// set, and the bytes of the texts.
pub(crate) fn updated_values(
    alloc: Global,
    columns: &[Column],
    assigns: &[Assign],
    values: &[Value],
) -> Result<Vec<Value>, Memory>
    ensures { IfOk result (λ after. after.items ≡ values_changed columns.now assigns.now values.now) }
{
    let mut after = Vec::new(alloc);
    let mut left = columns;
    let mut rest = values;
    while let [column, others @ ..] = left {
        let [value, later @ ..] = rest else {
            return Ok(after);
        };
        after.push(value_after(alloc, set_in(&column.name, assigns), value)?)?;
        left = others;
        rest = later;
    }
    Ok(after)
}
