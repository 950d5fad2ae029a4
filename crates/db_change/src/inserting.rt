//! INSERT.
#![tactic(auto, using(ct_keep::specs::laws::Composing::reads_on, ct_keep::specs::laws::Composing::reads_short, ct_keep::specs::laws::Composing::accepts_on))]

ghost use Rattle.std.specs.Prelude.{◌≡◌, ◌≤◌, ◌<◌, ◌+◌, IfOk, Some, None, Err, true, false, nat_le, length, map};
ghost use Rattle.std.specs.List.{list_any, list_all, filter_map, All};
ghost use Rattle.std.specs.Option.{option_map};
ghost use Rattle.std.specs.FinMap.{get, entries};
ghost use Rattle.ct_base.specs.Limits.{column_limit, row_limit};
ghost use Rattle.ct_keep.specs.KeeperViews.{OnlyReads};
ghost use Rattle.ct_entry.specs.Keys.{same_list};
ghost use Rattle.ct_entry.specs.Changes.{spell};
ghost use Rattle.ct_entry.specs.Shapes.{AreShaped};
ghost use Rattle.tb_table.specs.declared.columns.Column.{Column};
ghost use Rattle.tb_table.specs.Shapes.{HasTableValue};
ghost use Rattle.tb_table.specs.Tables.{texts_of};
ghost use Rattle.db_state.specs.States.{OverNamedTable};
ghost use Rattle.db_state.specs.Effects.{Effect, Checks};
ghost use Rattle.db_state.specs.Columns.{first_unknown as unknown_name};
ghost use Rattle.db_change.specs.Noting.{WhereTable};
ghost use Rattle.db_change.specs.Inserting.{MakesRow, PlansRow, inserted_row_changes, are_of_sorts as all_of_sorts, arranged as arranged_values, behind_key as others_of, check_list, check_row_values, covers as covers_columns, has_row as has_row_of, has_too_long as any_too_long, insert_into as insert_into_effect, is_of_sort as sort_takes, is_too_long as too_long_for, key_in as key_of, kept_value, number_value, text_value, IsShortValue, listed_names, row_created, value_under as named_value, IsFreeRow};
ghost use Rattle.db_rows.specs.Checking.{is_beyond_operand};
ghost use Rattle.db_state.specs.Plans.{IsStorePlan, Plans, Replies, line_for_all};
ghost use Rattle.db_state.specs.Shapes.{AcceptsStatements, AreStoreChanges};

use crate::keeping::keep_values;
use crate::noting::{indexes_on, new_values};
use ct_base::{COLUMN_LIMIT, Memory, Name, ROW_LIMIT, RowKey, TEXT_LIMIT, Text};
use ct_keep::{Batch, KeepFault, Keeper};
use db_cond::Fault;
use db_state::{Plan, carry_out, has_column, table_columns};
use ix_indexes::{RowEvent, row_notes};
use st_parse::{ColumnNames, Operand, Whole};
use std::alloc::Global;
use tb_table::{Column, Sort, has_row, insert, row_count};

// ---- the list of columns

/// The first of the names that is no column's.
fn unknown_column<'a>(names: &'a [Name], columns: &[Column]) -> Option<&'a Name>
    ensures { option_map (λ name. name.now) result ≡ unknown_name names.now columns.now }
{
    for name in names {
        if !has_column(name, columns) {
            return Some(name);
        }
    }
    None
}

/// The names of the list, if there is one.
fn names_in(names: &Option<ColumnNames>) -> &[Name]
    ensures { result.now ≡ listed_names names.now }
{
    match names {
        None => &[],
        Some(names) => names.as_slice(),
    }
}

/// Whether one of the names is this.
fn has_name(name: &Name, names: &[Name]) -> bool
    ensures { result ≡ list_any (same_list name.now) names.now }
{
    names.iter().any(|other| name.as_str() == other.as_str())
}

/// Whether each column has one of the names.
fn are_named(columns: &[Column], names: &[Name]) -> bool
    ensures { result ≡ list_all (λ (c : Column). list_any (same_list c.name) names.now) columns.now }
{
    columns.iter().all(|column| has_name(&column.name, names))
}

/// Whether the list names each column once; where there is none, all are meant.
fn covers(names: &Option<ColumnNames>, columns: &[Column]) -> bool
    ensures { result ≡ covers_columns names.now columns.now }
{
    match names {
        None => true,
        Some(names) => {
            let names = names.as_slice();
            names.len() == columns.len() && are_named(columns, names)
        }
    }
}

/// The first check that fails of the list of columns.
fn list_fault<'a>(
    columns: &[Column],
    names: &'a Option<ColumnNames>,
    values: &[Operand],
) -> Option<Fault<'a>>
    ensures { (done : Effect) → Checks result (check_list columns.now names.now values.now done) done }
{
    if let Some(name) = unknown_column(names_in(names), columns) {
        return Some(Fault::UnknownName(name.as_str()));
    }
    if !covers(names, columns) || values.len() != columns.len() {
        return Some(Fault::WrongValues);
    }
    None
}

// ---- the values in the order of the columns

/// A copy of a value.
fn copy_of(alloc: Global, value: &Operand) -> Result<Operand, Memory>
    ensures { IfOk result (λ copy. copy ≡ value.now) }
{
    match value {
        Operand::Text(text) => Ok(Operand::Text(Text::of(alloc, text.as_str())?)),
        Operand::Number(number) => Ok(Operand::Number(*number)),
    }
}

fn copies_of(alloc: Global, values: &[Operand]) -> Result<Vec<Operand>, Memory>
    ensures { IfOk result (λ copies. copies.items ≡ values.now) }
{
    let mut copies = Vec::new(alloc);
    for value in values {
        copies.push(copy_of(alloc, value)?)?;
    }
    Ok(copies)
}

/// The value at the place where the name stands.
#[tactic(auto, using(crate::proofs::NewValues::value_step))]
fn value_under<'a>(name: &Name, names: &[Name], values: &'a [Operand]) -> Option<&'a Operand>
    ensures { option_map (λ value. value.now) result ≡ named_value name.now names.now values.now }
{
    for (place, other) in names.iter().enumerate() {
        if name.as_str() == other.as_str() {
            return values.get(place);
        }
    }
    None
}

/// The values in the order of the columns. Its cost is the product of the numbers of columns and names.
fn arranged(
    alloc: Global,
    names: &[Name],
    columns: &[Column],
    values: &[Operand],
) -> Result<Vec<Operand>, Memory>
    ensures { IfOk result (λ arranged. arranged.items ≡ arranged_values (Some names.now) columns.now values.now) }
{
    let mut arranged = Vec::new(alloc);
    for column in columns {
        let Some(value) = value_under(&column.name, names, values) else {
            continue;
        };
        arranged.push(copy_of(alloc, value)?)?;
    }
    Ok(arranged)
}

/// The values in the order of the columns, by the list of columns if there is one.
fn arrange(
    alloc: Global,
    names: &Option<ColumnNames>,
    columns: &[Column],
    values: &[Operand],
) -> Result<Vec<Operand>, Memory>
    ensures { IfOk result (λ arranged. arranged.items ≡ arranged_values names.now columns.now values.now) }
{
    match names {
        None => copies_of(alloc, values),
        Some(names) => arranged(alloc, names.as_slice(), columns, values),
    }
}

// ---- the values, each with its column

pub(crate) fn is_of_sort(sort: Sort, value: &Operand) -> bool
    ensures { result ≡ sort_takes sort value.now }
{
    match (sort, value) {
        (Sort::Number, Operand::Number(_)) => true,
        (Sort::Varchar2(_) | Sort::Clob, Operand::Text(_)) => true,
        _ => false,
    }
}

/// Whether there are as many values as columns, each of its column's type.
#[tactic(auto, using(crate::proofs::NewValues::sorts_at))]
fn are_of_sorts(columns: &[Column], values: &[Operand]) -> bool
    ensures { result ≡ all_of_sorts columns.now values.now }
{
    if columns.len() != values.len() {
        return false;
    }
    for (place, column) in columns.iter().enumerate() {
        if !is_of_sort(column.sort, &values[place]) {
            return false;
        }
    }
    true
}

pub(crate) fn is_too_long(sort: Sort, value: &Operand) -> bool
    ensures long { result ≡ too_long_for sort value.now }
    ensures short { sort_takes sort value.now ≡ true → result ≡ false → IsShortValue value.now }
{
    match (sort, value) {
        (Sort::Varchar2(size), Operand::Text(text)) => text.as_str().len() > usize::from(size),
        (Sort::Clob, Operand::Text(text)) => text.as_str().len() > usize::from(TEXT_LIMIT),
        _ => false,
    }
}

/// Whether a text is longer than its column takes.
#[tactic(auto, using(crate::proofs::NewValues::long_at))]
fn has_too_long(columns: &[Column], values: &[Operand]) -> bool
    ensures long { result ≡ any_too_long columns.now values.now }
    ensures short { all_of_sorts columns.now values.now ≡ true → result ≡ false → All IsShortValue values.now }
{
    for (place, column) in columns.iter().enumerate() {
        let Some(value) = values.get(place) else {
            return false;
        };
        if is_too_long(column.sort, value) {
            return true;
        }
    }
    false
}

pub(crate) fn is_beyond(value: &Operand) -> bool
    ensures { result ≡ is_beyond_operand value.now }
{
    match value {
        Operand::Number(Whole::Beyond) => true,
        Operand::Number(Whole::Fits(_)) | Operand::Text(_) => false,
    }
}

fn has_beyond(values: &[Operand]) -> bool
    ensures { result ≡ list_any is_beyond_operand values.now }
{
    values.iter().any(|value| is_beyond(value))
}

/// The key of a row: its first value, where that is a number of 64 bits.
fn key_in(values: &[Operand]) -> Option<RowKey>
    ensures { option_map (λ key. key.0) result ≡ key_of values.now }
{
    match values {
        [Operand::Number(Whole::Fits(key)), ..] => Some(RowKey(*key)),
        _ => None,
    }
}

/// The first check that fails of the values; `taken` tells whether the table has a row of the key, `many` whether it has as
/// many rows as it may have. No state has a table of more than 16 columns, but a store that stands for no state may; more values
/// than that are refused, since `tb_table::insert` takes no more numbers.
#[tactic(auto, using(crate::proofs::ShapeSteps::too_many_values))]
fn values_fault(
    taken: bool,
    many: bool,
    columns: &[Column],
    values: &[Operand],
) -> Option<Fault<'static>>
    ensures checks { length columns.now ≤ column_limit → (done : Effect) → Checks result (check_row_values taken many columns.now values.now done) done }
    ensures few { result ≡ None → length values.now ≤ column_limit }
    ensures short { result ≡ None → All IsShortValue values.now }
{
    if values.len() > COLUMN_LIMIT {
        return Some(Fault::WrongValues);
    }
    if !are_of_sorts(columns, values) {
        return Some(Fault::WrongValues);
    }
    if taken && let Some(key) = key_in(values) {
        return Some(Fault::KeyExists(key.0));
    }
    if has_too_long(columns, values) {
        return Some(Fault::ValueTooLong);
    }
    if has_beyond(values) {
        return Some(Fault::OutOfRange);
    }
    if many {
        return Some(Fault::LimitReached);
    }
    None
}

// ---- what a row keeps

/// The number that a row keeps of a value, if any; in place of one that is out of its range, 0.
pub(crate) fn number_in(value: &Operand) -> Option<i64>
    ensures { result ≡ number_value value.now }
{
    match value {
        Operand::Text(_) => None,
        Operand::Number(Whole::Fits(number)) => Some(*number),
        Operand::Number(Whole::Beyond) => Some(0),
    }
}

/// The numbers of a row by its values but the key, in the order of their columns.
fn numbers_in(alloc: Global, values: &[Operand]) -> Result<Vec<i64>, Memory>
    ensures { IfOk result (λ numbers. numbers.items ≡ filter_map number_value values.now) }
{
    let mut numbers = Vec::new(alloc);
    for value in values {
        let Some(number) = number_in(value) else {
            continue;
        };
        numbers.push(number)?;
    }
    Ok(numbers)
}

/// The text that a row keeps of a value, if any.
fn text_in(value: Operand) -> Option<Text>
    ensures { result ≡ text_value value }
{
    match value {
        Operand::Text(text) => Some(text),
        Operand::Number(_) => None,
    }
}

/// The column of a value by its place behind the key, or the last that there can be.
pub(crate) fn column_of(place: usize) -> u8
    ensures { place < 255 → result ≡ place + 1 }
{
    u8::try_from(place.saturating_add(1)).unwrap_or(u8::MAX)
}

/// The texts of a row by its values but the key, each with its column. None is copied.
fn texts_in(alloc: Global, values: Vec<Operand>) -> Result<Vec<(u8, Text)>, Memory>
    ensures { IfOk result (λ texts. length values.items ≤ 255 → texts.items ≡ texts_of (map kept_value values.items)) }
{
    let mut texts = Vec::new(alloc);
    let mut place: usize = 0;
    for value in values {
        let column = column_of(place);
        place = place.saturating_add(1);
        let Some(text) = text_in(value) else {
            continue;
        };
        texts.push((column, text))?;
    }
    Ok(texts)
}

/// The changes of a row by its values but the key.
fn row_batch(
    alloc: Global,
    table: &Name,
    row: RowKey,
    values: Vec<Operand>,
) -> Result<Batch, Memory>
    requires few { length values.items ≤ column_limit }
    requires short { All IsShortValue values.items }
    ensures changes { IfOk result (λ batch. length values.items ≤ 255 → batch ≡ spell (inserted_row_changes table.now row.0 values.items)) }
    ensures shaped { IfOk result (λ batch. AreShaped HasTableValue batch) }
{
    let numbers = numbers_in(alloc, values.as_slice())?;
    let texts = texts_in(alloc, values)?;
    let mut batch = Batch::new(alloc);
    insert(alloc, &mut batch, table, row, &numbers, texts)?;
    Ok(batch)
}

/// The values but the key.
#[tactic(auto, using(crate::proofs::KeptValues::key_removed))]
fn behind_key(mut values: Vec<Operand>) -> Vec<Operand>
    ensures { result.items ≡ others_of values.items }
{
    if !values.is_empty() {
        let _key = values.remove(0);
    }
    values
}

/// The batch of a row that has passed the checks: its changes, and what each index on the table is told of it.
fn insert_batch<K: Keeper>(
    alloc: Global,
    keeper: &mut K,
    table: &Name,
    columns: &[Column],
    row: RowKey,
    values: Vec<Operand>,
) -> Result<Batch, KeepFault>
    requires ready { (K.view keeper.old).ready }
    requires few { length values.items ≤ column_limit }
    requires short { All IsShortValue values.items }
    ensures batch { WhereTable K.view keeper.old table.now columns.now (λ m c x. IsFreeRow x values.items row.0 → IfOk result (MakesRow m c table.now row.0 values.items)) }
    ensures entries { IfOk result AreStoreChanges }
    ensures reads { OnlyReads K.view keeper.old keeper.new result }
{
    let values = behind_key(values);
    let given = values.as_slice();
    keep_values(given);
    let indexes = indexes_on(alloc, keeper, table, columns)?;
    let new = new_values(alloc, &indexes, given)?;
    let mut batch = row_batch(alloc, table, row, values)?;
    let next = new.as_slice();
    let notes = row_notes(alloc, keeper, &indexes, row, RowEvent::Comes(next))?;
    batch.append(notes)?;
    Ok(batch)
}

// ---- the statement

/// Whether the table has a row of the key, if there is a key.
fn is_taken<K: Keeper>(
    alloc: Global,
    keeper: &mut K,
    table: &Name,
    key: Option<RowKey>,
) -> Result<bool, KeepFault>
    requires { (K.view keeper.old).ready }
    ensures taken { OverNamedTable K.view keeper.old table.now (λ m c x. IfOk result (λ taken. taken ≡ has_row_of x (option_map (λ key. key.0) key))) }
    ensures reads { OnlyReads K.view keeper.old keeper.new result }
{
    match key {
        None => Ok(false),
        Some(key) => has_row(alloc, keeper, table, key),
    }
}

/// Whether the table has as many rows as it may have.
fn has_most_rows<K: Keeper>(alloc: Global, keeper: &mut K, table: &Name) -> Result<bool, KeepFault>
    requires { (K.view keeper.old).ready }
    ensures many { OverNamedTable K.view keeper.old table.now (λ m c x. IfOk result (λ many. many ≡ nat_le row_limit (length (entries x.rows)))) }
    ensures reads { OnlyReads K.view keeper.old keeper.new result }
{
    let count = row_count(alloc, keeper, table)?;
    Ok(count >= ROW_LIMIT as u64)
}

/// What an INSERT of values in the order of the columns of a table that is there comes to.
fn values_plan<'a, K: Keeper>(
    alloc: Global,
    keeper: &mut K,
    table: &'a Name,
    columns: &[Column],
    values: Vec<Operand>,
) -> Result<Plan<'a>, KeepFault>
    requires { (K.view keeper.old).ready }
    ensures plan { OverNamedTable K.view keeper.old table.now (λ m c x. PlansRow m c x table.now columns.now values.items result) }
    ensures entries { IfOk result IsStorePlan }
    ensures reads { OnlyReads K.view keeper.old keeper.new result }
{
    let slice = values.as_slice();
    let key = key_in(slice);
    let taken = is_taken(alloc, keeper, table, key)?;
    let many = has_most_rows(alloc, keeper, table)?;
    if let Some(fault) = values_fault(taken, many, columns, slice) {
        return Ok(Plan::Refused(fault));
    }
    let Some(key) = key else {
        return Ok(Plan::Refused(Fault::OutOfRange));
    };
    let batch = insert_batch(alloc, keeper, table, columns, key, values)?;
    Ok(Plan::Done(batch))
}

/// What an INSERT comes to.
fn insert_plan<'a, K: Keeper>(
    alloc: Global,
    keeper: &mut K,
    table: &'a Name,
    names: &'a Option<ColumnNames>,
    values: &[Operand],
) -> Result<Plan<'a>, KeepFault>
    requires { (K.view keeper.old).ready }
    ensures plan { Plans K.view keeper.old result (λ m. insert_into_effect m table.now names.now values.now) row_created }
    ensures entries { IfOk result IsStorePlan }
    ensures reads { OnlyReads K.view keeper.old keeper.new result }
{
    let Some(columns) = table_columns(alloc, keeper, table)? else {
        return Ok(Plan::Refused(Fault::UnknownName(table.as_str())));
    };
    if let Some(fault) = list_fault(&columns, names, values) {
        return Ok(Plan::Refused(fault));
    }
    let values = arrange(alloc, names, &columns, values)?;
    values_plan(alloc, keeper, table, &columns, values)
}

/// INSERT. Its cost is that of the table's columns, of the entries of all indexes, and of the values' bytes, which are copied once. In a
/// CONTEXT index and in a rule index the row waits, at the cost of one change; for each catalogue its text is read at once, and for all of
/// these its values are copied once more. The keeper counts the rows of the table, so they aren't read.
pub fn insert_into<K: Keeper>(
    alloc: Global,
    keeper: &mut K,
    table: &Name,
    names: &Option<ColumnNames>,
    values: &[Operand],
) -> Result<Vec<u8>, KeepFault>
    requires { AcceptsStatements (K.view keeper.old) }
    ensures { Replies K.view keeper.old keeper.new result (λ m. insert_into_effect m table.now names.now values.now) (Some (line_for_all row_created)) }
{
    match insert_plan(alloc, keeper, table, names, values) {
        Ok(plan) => carry_out(alloc, keeper, plan, b"1 row created.\n"),
        Err(fault) => Err(fault),
    }
}
