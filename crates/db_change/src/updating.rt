//! UPDATE.
#![tactic(auto, using(ct_keep::specs::laws::Composing::reads_on, ct_keep::specs::laws::Composing::reads_short, ct_keep::specs::laws::Composing::accepts_on))]

ghost use Rattle.std.specs.Prelude.{◌≡◌, ◌≤◌, ◌<◌, IfOk, Some, [], length};
ghost use Rattle.std.specs.List.{All, filter_map, cons_option};
ghost use Rattle.std.specs.Option.{option_map, option_and_then};
ghost use Rattle.std.specs.FinMap.{get};
ghost use Rattle.ct_base.specs.Limits.{column_limit};
ghost use Rattle.ct_keep.specs.KeeperViews.{OnlyReads};
ghost use Rattle.ct_entry.specs.Changes.{spell};
ghost use Rattle.ct_entry.specs.Shapes.{AreShaped};
ghost use Rattle.ix_indexes.specs.Shapes.{HasIndexValue};
ghost use Rattle.ix_indexes.specs.Noting.{AllCanTell, AreHeld, noted_by, noted_indexes, noted_looks_any};
ghost use Rattle.tb_table.specs.Rules.{others};
ghost use Rattle.tb_table.specs.Shapes.{HasTableValue};
ghost use Rattle.db_state.specs.Plans.{IsPlanOf, IsStorePlan, Replies};
ghost use Rattle.db_state.specs.Shapes.{AcceptsStatements, AreStoreChanges};
ghost use Rattle.db_change.specs.Inserting.{number_value, text_value};
ghost use Rattle.db_change.specs.Noting.{AreNoted, noted_set, WhereRow, WhereRows, WhereTable};
ghost use Rattle.db_change.specs.Updating.{indexes_set as indexes_of_set, number_set as column_number, numbers_after as numbers_changed, places_set, rows_updated, set_in as value_set, texts_set as texts_changed, update as update_effect, value_changes, with_set as numbers_with, IsShortAssign, TellsOfRow, UpdatesRow, UpdatesRows, UpdatesTable};

use crate::assigning::update_fault;
use crate::inserting::{column_of, number_in};
use crate::keeping::keep_assigns;
use crate::noting::{indexes_on, lost_notes, updated_values, values_needed};
use ct_base::{Memory, Name, RowKey, Text};
use ct_keep::{Batch, KeepFault, Keeper};
use db_cond::{Fault, rows_line};
use db_rows::{keys_meeting, row_numbers};
use db_state::{Plan, carry_out, column_place, table_columns};
use ix_indexes::{RowEvent, TableIndex, looks_at, row_notes};
use st_parse::{Assign, Cond, Operand};
use std::alloc::Global;
use tb_table::{Column, Sort};

// ---- the values of a row

/// The columns but the key.
fn behind_key(columns: &[Column]) -> &[Column]
    ensures { result.now ≡ others columns.now }
{
    match columns {
        [] => &[],
        [_key, others @ ..] => others,
    }
}

/// The value that is set in a column, if one is.
pub(crate) fn set_in<'a>(name: &Name, assigns: &'a [Assign]) -> Option<&'a Operand>
    ensures { option_map (λ value. value.now) result ≡ value_set assigns.now name.now }
{
    for assign in assigns {
        if name.as_str() == assign.column.as_str() {
            return Some(&assign.value);
        }
    }
    None
}

/// The number among what is set, if one is.
fn as_number(value: Option<&Operand>) -> Option<i64>
    ensures { result ≡ option_and_then number_value (option_map (λ v. v.now) value.entry) }
{
    match value {
        Some(value) => number_in(value),
        None => None,
    }
}

/// Of a column of numbers, the number that is set in it, if one is.
fn number_set(column: &Column, assigns: &[Assign]) -> Option<Option<i64>>
    ensures { result ≡ column_number assigns.now column.now }
{
    let value = set_in(&column.name, assigns);
    match column.sort {
        Sort::Number => Some(as_number(value)),
        Sort::Varchar2(_) | Sort::Clob => None,
    }
}

/// What is set in the columns of numbers, in their order.
fn numbers_set(
    alloc: Global,
    columns: &[Column],
    assigns: &[Assign],
) -> Result<Vec<Option<i64>>, Memory>
    ensures { IfOk result (λ set. set.items ≡ filter_map (column_number assigns.now) columns.now) }
{
    let mut set = Vec::new(alloc);
    for column in columns {
        let Some(number) = number_set(column, assigns) else {
            continue;
        };
        set.push(number)?;
    }
    Ok(set)
}

/// The numbers of a row, with those that are set in their places.
fn with_set(alloc: Global, set: &[Option<i64>], numbers: &[i64]) -> Result<Vec<i64>, Memory>
    ensures { IfOk result (λ after. after.items ≡ numbers_with set.now numbers.now) }
{
    let mut after = Vec::new(alloc);
    for (place, number) in set.iter().enumerate() {
        let Some(old) = numbers.get(place) else {
            return Ok(after);
        };
        after.push(number.unwrap_or(*old))?;
    }
    Ok(after)
}

/// The numbers of a row of these columns behind the key after the UPDATE, by those before.
fn numbers_after(
    alloc: Global,
    columns: &[Column],
    assigns: &[Assign],
    numbers: &[i64],
) -> Result<Vec<i64>, Memory>
    ensures { IfOk result (λ after. after.items ≡ numbers_changed columns.now assigns.now numbers.now) }
{
    let set = numbers_set(alloc, columns, assigns)?;
    with_set(alloc, &set, numbers)
}

/// A copy of the text among what is set, if one is.
fn as_text(alloc: Global, value: Option<&Operand>) -> Result<Option<Text>, Memory>
    ensures { IfOk result (λ text. text ≡ option_and_then text_value (option_map (λ v. v.now) value.entry)) }
{
    match value {
        Some(Operand::Text(text)) => Ok(Some(Text::of(alloc, text.as_str())?)),
        Some(Operand::Number(_)) | None => Ok(None),
    }
}

/// The texts that are set, each with its column, of a table with these columns behind the key.
fn texts_set(
    alloc: Global,
    columns: &[Column],
    assigns: &[Assign],
) -> Result<Vec<(u8, Text)>, Memory>
    ensures { IfOk result (λ texts. length columns.now ≤ 255 → texts.items ≡ texts_changed 1 columns.now assigns.now) }
{
    let mut texts = Vec::new(alloc);
    for (place, column) in columns.iter().enumerate() {
        let Some(text) = as_text(alloc, set_in(&column.name, assigns))? else {
            continue;
        };
        texts.push((column_of(place), text))?;
    }
    Ok(texts)
}

/// The changes of the values of a row, of which these are the numbers before.
fn value_batch(
    alloc: Global,
    table: &Name,
    columns: &[Column],
    assigns: &[Assign],
    row: RowKey,
    numbers: &[i64],
) -> Result<Batch, Memory>
    requires few { length columns.now ≤ column_limit }
    requires short { All IsShortAssign assigns.now }
    ensures changes { IfOk result (λ batch. batch ≡ spell (value_changes table.now columns.now assigns.now numbers.now row.0)) }
    ensures shaped { IfOk result (AreShaped HasTableValue) }
{
    let numbers = numbers_after(alloc, columns, assigns, numbers)?;
    let texts = texts_set(alloc, columns, assigns)?;
    let mut batch = Batch::new(alloc);
    tb_table::update(alloc, &mut batch, table, row, &numbers, texts)?;
    Ok(batch)
}

// ---- the indexes that look at columns that are set

/// Whether the index looks at the column of this place, if there is one.
fn looks_there(index: &TableIndex, place: Option<usize>) -> bool
    ensures { result ≡ noted_looks_any (cons_option place []) (noted_by index.now.noting) }
{
    match place {
        Some(place) => looks_at(index, place),
        None => false,
    }
}

/// Whether the index looks at a column that is set.
fn looks_at_set(index: &TableIndex, columns: &[Column], assigns: &[Assign]) -> bool
    ensures { result ≡ noted_looks_any (places_set columns.now assigns.now) (noted_by index.now.noting) }
{
    let mut rest = assigns;
    while let [assign, later @ ..] = rest {
        if looks_there(index, column_place(&assign.column, columns)) {
            return true;
        }
        rest = later;
    }
    false
}

/// Keeps the indexes that look at columns that are set.
fn keep_set(indexes: &mut Vec<TableIndex>, columns: &[Column], assigns: &[Assign])
    ensures kept { noted_indexes indexes.new.items ≡ noted_set (places_set columns.now assigns.now) (noted_indexes indexes.old.items) }
    ensures can_tell { AllCanTell indexes.old.items → AllCanTell indexes.new.items }
{
    indexes.retain(|index| looks_at_set(index, columns, assigns));
}

/// The indexes that look at columns that are set.
fn indexes_set<K: Keeper>(
    alloc: Global,
    keeper: &mut K,
    table: &Name,
    columns: &[Column],
    assigns: &[Assign],
) -> Result<Vec<TableIndex>, KeepFault>
    requires { (K.view keeper.old).ready }
    ensures indexes { WhereTable K.view keeper.old table.now columns.now (λ m c x. IfOk result (AreNoted (indexes_of_set m table.now columns.now assigns.now))) }
    ensures can_tell { IfOk result (λ found. AllCanTell found.items) }
    ensures reads { OnlyReads K.view keeper.old keeper.new result }
{
    let mut indexes = indexes_on(alloc, keeper, table, columns)?;
    keep_set(&mut indexes, columns, assigns);
    Ok(indexes)
}

// ---- the rows

/// What the indexes are told of a row that is set.
fn notes_of_row<K: Keeper>(
    alloc: Global,
    keeper: &mut K,
    table: &Name,
    columns: &[Column],
    assigns: &[Assign],
    indexes: &[TableIndex],
    row: RowKey,
) -> Result<Batch, KeepFault>
    requires ready { (K.view keeper.old).ready }
    requires short { All IsShortAssign assigns.now }
    requires can { AllCanTell indexes.now }
    ensures notes { WhereRow K.view keeper.old table.now columns.now row.0 (λ m c x. AreHeld c (noted_indexes indexes.now) → IfOk result (TellsOfRow c x columns.now assigns.now indexes.now row.0)) }
    ensures shaped { IfOk result (AreShaped HasIndexValue) }
    ensures reads { OnlyReads K.view keeper.old keeper.new result }
{
    let old = values_needed(alloc, keeper, indexes, table, columns, row)?;
    let was = old.as_slice();
    let new = updated_values(alloc, behind_key(columns), assigns, was)?;
    let next = new.as_slice();
    let notes = row_notes(alloc, keeper, indexes, row, RowEvent::Changes(was, next))?;
    Ok(notes)
}

/// The changes of one row of a table with these columns.
///
/// Its cost is that of the texts that are set, a look-up of its numbers, one of its document in each CONTEXT index, and one of its rule in
/// each rule index. Only where one of the indexes is a catalogue its values are looked up, and its text is read once as it was and once as
/// it will be.
fn row_batch<K: Keeper>(
    alloc: Global,
    keeper: &mut K,
    table: &Name,
    columns: &[Column],
    assigns: &[Assign],
    indexes: &[TableIndex],
    row: RowKey,
) -> Result<Batch, KeepFault>
    requires ready { (K.view keeper.old).ready }
    requires few { length columns.now ≤ column_limit }
    requires short { All IsShortAssign assigns.now }
    requires can { AllCanTell indexes.now }
    ensures batch { WhereRow K.view keeper.old table.now columns.now row.0 (λ m c x. AreHeld c (noted_indexes indexes.now) → IfOk result (UpdatesRow c m table.now columns.now assigns.now indexes.now row.0)) }
    ensures entries { IfOk result AreStoreChanges }
    ensures reads { OnlyReads K.view keeper.old keeper.new result }
{
    let numbers = row_numbers(alloc, keeper, table, row)?;
    let behind = behind_key(columns);
    let mut batch = value_batch(alloc, table, behind, assigns, row, &numbers)?;
    let notes = notes_of_row(alloc, keeper, table, columns, assigns, indexes, row)?;
    batch.append(notes)?;
    Ok(batch)
}

/// The changes of these rows of a table with these columns.
fn rows_batch<K: Keeper>(
    alloc: Global,
    keeper: &mut K,
    table: &Name,
    columns: &[Column],
    assigns: &[Assign],
    indexes: &[TableIndex],
    rows: &[RowKey],
) -> Result<Batch, KeepFault>
    requires ready { (K.view keeper.old).ready }
    requires few { length columns.now ≤ column_limit }
    requires short { All IsShortAssign assigns.now }
    requires can { AllCanTell indexes.now }
    ensures batch { WhereRows K.view keeper.old table.now columns.now rows.now (λ m c rs. AreHeld c (noted_indexes indexes.now) → IfOk result (UpdatesRows c m table.now columns.now assigns.now indexes.now rs)) }
    ensures entries { IfOk result AreStoreChanges }
    ensures reads { OnlyReads K.view keeper.old keeper.new result }
{
    let mut batch = Batch::new(alloc);
    for row in rows {
        let changes = row_batch(alloc, keeper, table, columns, assigns, indexes, *row)?;
        batch.append(changes)?;
    }
    Ok(batch)
}

/// The changes of these rows of a table with these columns, in each index that looks at a column that is set; of these those that are
/// tidy are so no more.
fn update_batch<K: Keeper>(
    alloc: Global,
    keeper: &mut K,
    table: &Name,
    columns: &[Column],
    assigns: &[Assign],
    rows: &[RowKey],
) -> Result<Batch, KeepFault>
    requires ready { (K.view keeper.old).ready }
    requires few { length columns.now ≤ column_limit }
    requires short { All IsShortAssign assigns.now }
    ensures batch { WhereRows K.view keeper.old table.now columns.now rows.now (λ m c rs. IfOk result (UpdatesTable c m table.now columns.now assigns.now rs)) }
    ensures entries { IfOk result AreStoreChanges }
    ensures reads { OnlyReads K.view keeper.old keeper.new result }
{
    let indexes = indexes_set(alloc, keeper, table, columns, assigns)?;
    let mut batch = lost_notes(alloc, keeper, &indexes, rows)?;
    let changes = rows_batch(alloc, keeper, table, columns, assigns, &indexes, rows)?;
    batch.append(changes)?;
    Ok(batch)
}

// ---- the statement

/// What an UPDATE comes to, and of how many rows.
fn update_plan<'a, K: Keeper>(
    alloc: Global,
    keeper: &mut K,
    table: &'a Name,
    assigns: &'a [Assign],
    conds: &'a [Cond],
) -> Result<(Plan<'a>, usize), KeepFault>
    requires { (K.view keeper.old).ready }
    ensures plan { IfOk result (λ p. IsPlanOf (λ m. update_effect m table.now assigns.now conds.now) (rows_updated p.1) (K.view keeper.old) p.0) }
    ensures entries { IfOk result (λ p. IsStorePlan p.0) }
    ensures reads { OnlyReads K.view keeper.old keeper.new result }
{
    let Some(columns) = table_columns(alloc, keeper, table)? else {
        return Ok((Plan::Refused(Fault::UnknownName(table.as_str())), 0));
    };
    if let Some(fault) = update_fault(&columns, assigns, conds) {
        return Ok((Plan::Refused(fault), 0));
    }
    keep_assigns(assigns);
    let rows = keys_meeting(alloc, keeper, table, &columns, conds)?;
    let batch = update_batch(alloc, keeper, table, &columns, assigns, &rows)?;
    Ok((Plan::Done(batch), rows.len()))
}

/// UPDATE, by at most one commit. Its cost is that of `keys_meeting` for the conditions, of the entries of all indexes, and for each row
/// of its numbers and of what it has in each index that looks at a column that is set: in a CONTEXT index the look-up of its document, in
/// a rule index that of its rule, and in a catalogue the reading of its text as it was and as it is, for which its values are looked up
/// once. An UPDATE of columns that no catalogue looks at reads no text. So an UPDATE of one row by its key costs as much in any table.
pub fn update<K: Keeper>(
    alloc: Global,
    keeper: &mut K,
    table: &Name,
    assigns: &[Assign],
    conds: &[Cond],
) -> Result<Vec<u8>, KeepFault>
    requires { AcceptsStatements (K.view keeper.old) }
    ensures { Replies K.view keeper.old keeper.new result (λ m. update_effect m table.now assigns.now conds.now) (Some rows_updated) }
{
    let (plan, rows) = update_plan(alloc, keeper, table, assigns, conds)?;
    let line = rows_line(alloc, rows, b"updated.\n")?;
    carry_out(alloc, keeper, plan, &line)
}
