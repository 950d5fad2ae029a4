//! The values of rows.
#![tactic(auto, using(ct_keep::specs::laws::Composing::reads_on, ct_keep::specs::laws::Composing::reads_short))]

ghost use Rattle.std.specs.Prelude.{◌≡◌, ◌<◌, ◌^◌, ◌++◌, ◌∷◌, [], IfOk, OnOk};
ghost use Rattle.std.specs.List.{slice_get};
ghost use Rattle.std.specs.Option.{option_map};
ghost use Rattle.ct_base.specs.declared.lists.Value.TheVariants.{Number as NumberValue, Text as TextValue};
ghost use Rattle.ct_keep.specs.KeeperViews.{OnlyReads};
ghost use Rattle.tb_table.specs.Tables.{row_at};
ghost use Rattle.cat_index.specs.Sees.{OverRow, OverTables, OverValues, before_next, text_by, value_by};

use ct_base::{Memory, Name, RowKey, Text, Value};
use ct_keep::{KeepFault, Keeper};
use std::alloc::Global;
use tb_table::{Column, Sort, number_row, text_of};

/// How many columns a key can tell apart.
const PLACE_COUNT: usize = 256;

/// The number of this place among those of a row.
fn number_at(numbers: &[i64], place: usize) -> Option<Value>
    ensures { result ≡ option_map NumberValue (slice_get numbers.now place) }
{
    match numbers.get(place) {
        Some(number) => Some(Value::Number(*number)),
        None => None,
    }
}

/// The text as a value.
fn text_as_value(text: Option<Text>) -> Option<Value>
    ensures { result ≡ option_map TextValue text }
{
    match text {
        Some(text) => Some(Value::Text(text)),
        None => None,
    }
}

/// The text of a row in the column at this place.
fn text_value<K: Keeper>(
    alloc: Global,
    keeper: &mut K,
    table: &Name,
    place: usize,
    row: RowKey,
) -> Result<Option<Value>, KeepFault>
    requires { (K.view keeper.old).ready }
    ensures value { OverTables K.view keeper.old (λ ts. place < 256 → IfOk result (λ v. v ≡ text_by place (row_at ts table.now row.0))) }
    ensures reads { OnlyReads K.view keeper.old keeper.new result }
{
    if place >= PLACE_COUNT {
        return Ok(None);
    }
    let text = text_of(alloc, keeper, table, place as u8, row)?;
    Ok(text_as_value(text))
}

/// The value of a row in a column of this sort at this place, of a row with these numbers.
fn next_value<K: Keeper>(
    alloc: Global,
    keeper: &mut K,
    table: &Name,
    sort: Sort,
    place: usize,
    numbers: &[i64],
    before: usize,
    row: RowKey,
) -> Result<Option<Value>, KeepFault>
    requires { (K.view keeper.old).ready }
    ensures value { OverTables K.view keeper.old (λ ts. place < 256 → IfOk result (λ v. v ≡ value_by sort place numbers.now before (row_at ts table.now row.0))) }
    ensures reads { OnlyReads K.view keeper.old keeper.new result }
{
    match sort {
        Sort::Number => Ok(number_at(numbers, before)),
        Sort::Varchar2(_) | Sort::Clob => text_value(alloc, keeper, table, place, row),
    }
}

/// How many numbers stand before the next column.
fn before_next(sort: Sort, before: usize) -> usize
    requires { before < 2 ^ 63 }
    ensures { result ≡ before_next sort before }
{
    match sort {
        Sort::Number => before + 1,
        Sort::Varchar2(_) | Sort::Clob => before,
    }
}

/// Adds a value.
fn add_value(values: &mut Vec<Value>, value: Value) -> Result<(), Memory>
    ensures { OnOk result (values.new.items ≡ values.old.items ++ value ∷ []) }
{
    values.push(value)?;
    Ok(())
}

/// The values of a row in these columns, which are those behind the key, of a row with these numbers.
fn values_behind_key<K: Keeper>(
    alloc: Global,
    keeper: &mut K,
    table: &Name,
    columns: &[Column],
    numbers: &[i64],
    row: RowKey,
) -> Result<Vec<Value>, KeepFault>
    requires { (K.view keeper.old).ready }
    ensures values { OverValues K.view keeper.old table.now columns.now numbers.now row.0 (λ vs. IfOk result (λ values. values.items ≡ vs)) }
    ensures reads { OnlyReads K.view keeper.old keeper.new result }
{
    let mut values = Vec::new(alloc);
    let mut before = 0;
    let mut rest = columns;
    'each: while let Some((column, later)) = rest.split_first() {
        let place = values.len() + 1;
        let found = next_value(
            alloc,
            keeper,
            table,
            column.sort,
            place,
            numbers,
            before,
            row,
        )?;
        let Some(value) = found else {
            return Ok(values);
        };
        add_value(&mut values, value)?;
        before = before_next(column.sort, before);
        rest = later;
    }
    Ok(values)
}

/// The values of a row of a table with these columns, but for its key, in their order. Where the table has no such row, or other
/// columns, nothing is said of them.
///
/// It takes a look-up for its numbers, and one for each text. It never answers Full.
pub fn row_values<K: Keeper>(
    alloc: Global,
    keeper: &mut K,
    table: &Name,
    columns: &[Column],
    row: RowKey,
) -> Result<Vec<Value>, KeepFault>
    requires { (K.view keeper.old).ready }
    ensures values { OverRow K.view keeper.old table.now columns.now row.0 (λ vs. IfOk result (λ values. values.items ≡ vs)) }
    ensures reads { OnlyReads K.view keeper.old keeper.new result }
{
    let Some((_key, behind)) = columns.split_first() else {
        return Ok(Vec::new(alloc));
    };
    let Some(numbers) = number_row(alloc, keeper, table, row)? else {
        return Ok(Vec::new(alloc));
    };
    values_behind_key(alloc, keeper, table, behind, &numbers, row)
}
