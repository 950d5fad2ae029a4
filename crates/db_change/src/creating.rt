//! CREATE TABLE.
#![tactic(auto, using(ct_keep::specs::laws::Composing::reads_on, ct_keep::specs::laws::Composing::reads_short, ct_keep::specs::laws::Composing::accepts_on))]

ghost use Rattle.std.specs.Prelude.{All, ◌≡◌, ◌≤◌, IfOk, Some, None, true, not, ◌&&◌, length, map};
ghost use Rattle.std.specs.List.{list_any, list_all};
ghost use Rattle.std.specs.Option.{unwrap_or};
ghost use Rattle.ct_base.specs.Names.{IsName};
ghost use Rattle.ct_keep.specs.KeeperViews.{OnlyReads};
ghost use Rattle.ct_entry.specs.Keys.{same_list};
ghost use Rattle.ct_entry.specs.Changes.{spell};
ghost use Rattle.ct_entry.specs.Shapes.{AreShaped};
ghost use Rattle.tb_table.specs.Shapes.{HasTableValue};
ghost use Rattle.st_parse.specs.declared.statements.ColumnText.{ColumnText};
ghost use Rattle.tb_table.specs.Spelling.{table_changes};
ghost use Rattle.tb_table.specs.declared.columns.Column.{Column};
ghost use Rattle.db_state.specs.Effects.{Effect, whole_count, Checks};
ghost use Rattle.db_change.specs.Creating.{names_differ as columns_apart, check_table, column_of, all_sized, is_size, create_table as create_table_effect, is_key_first as key_first, is_number_sort as sort_is_number, is_sized as sort_sized, declared_sort, table_created};
ghost use Rattle.db_state.specs.Plans.{IsStorePlan, Plans, Replies, line_for_all};
ghost use Rattle.db_state.specs.Shapes.{AcceptsStatements};

use ct_base::{COLUMN_LIMIT, Memory, Name, TEXT_LIMIT};
use ct_keep::{Batch, KeepFault, Keeper};
use db_cond::Fault;
use db_state::{Plan, carry_out, has_most_tables, has_table, is_view};
use st_parse::{ColumnText, SortText, Whole};
use std::alloc::Global;
use tb_table::{Column, Sort, create};

fn is_number_sort(sort: SortText) -> bool
    ensures { result ≡ sort_is_number sort }
{
    match sort {
        SortText::Number => true,
        SortText::Varchar2(_) | SortText::Clob => false,
    }
}

/// Whether none of the columns is called the primary key.
fn is_none_primary(columns: &[ColumnText]) -> bool
    ensures { result ≡ list_all (λ (d : ColumnText). not d.primary) columns.now }
{
    columns.iter().all(|column| !column.primary)
}

/// Whether the first column, and no other, is NUMBER PRIMARY KEY.
fn is_key_first(columns: &[ColumnText]) -> bool
    ensures { result ≡ key_first columns.now }
{
    match columns {
        [] => false,
        [first, others @ ..] => {
            is_number_sort(first.sort) && first.primary && is_none_primary(others)
        }
    }
}

/// Whether one of the columns has the name.
fn has_name(columns: &[ColumnText], name: &Name) -> bool
    ensures { result ≡ list_any (λ (d : ColumnText). same_list name.now d.name) columns.now }
{
    columns
        .iter()
        .any(|column| name.as_str() == column.name.as_str())
}

/// Whether no two columns have one name.
fn names_differ(columns: &[ColumnText]) -> bool
    ensures { result ≡ columns_apart columns.now }
{
    let mut rest = columns;
    while let [first, others @ ..] = rest {
        if has_name(others, &first.name) {
            return false;
        }
        rest = others;
    }
    true
}

/// Whether a VARCHAR2 column has a size from 1 to the limit of texts.
fn is_sized(column: &ColumnText) -> bool
    ensures { result ≡ sort_sized column.now.sort }
{
    match column.sort {
        SortText::Varchar2(Whole::Fits(size)) => 1 <= size && size <= i64::from(TEXT_LIMIT),
        SortText::Varchar2(Whole::Beyond) => false,
        SortText::Number | SortText::Clob => true,
    }
}

/// Whether each VARCHAR2 column has a size from 1 to the limit of texts.
fn are_sized(columns: &[ColumnText]) -> bool
    ensures { result ≡ all_sized columns.now }
{
    columns.iter().all(|column| is_sized(column))
}

/// The first check that fails of a table that is created; `there` tells whether it is there, `many` whether there are as many
/// tables as there may be.
fn table_fault<'a>(
    there: bool,
    many: bool,
    table: &'a Name,
    columns: &[ColumnText],
) -> Option<Fault<'a>>
    ensures checks { (done : Effect) → Checks result (check_table there many table.now columns.now done) done }
    ensures few { result ≡ None → length columns.now ≤ 16 }
{
    let name = table.as_str();
    if there || is_view(name) {
        return Some(Fault::ExistsAlready(name));
    }
    if !(is_key_first(columns) && names_differ(columns)) {
        return Some(Fault::WrongValues);
    }
    if !are_sized(columns) {
        return Some(Fault::OutOfRange);
    }
    if columns.len() > COLUMN_LIMIT || many {
        return Some(Fault::LimitReached);
    }
    None
}

/// The size of a VARCHAR2 column, which is checked.
fn kept_size(size: Whole) -> u16
    ensures { is_size (whole_count size) ≡ true → result ≡ unwrap_or (whole_count size) 0 }
{
    match size {
        Whole::Fits(size) => u16::try_from(size).unwrap_or(0),
        Whole::Beyond => 0,
    }
}

/// The type of a column as tables keep it.
fn kept_sort(sort: SortText) -> Sort
    ensures { sort_sized sort ≡ true → result ≡ declared_sort sort }
{
    match sort {
        SortText::Number => Sort::Number,
        SortText::Varchar2(size) => Sort::Varchar2(kept_size(size)),
        SortText::Clob => Sort::Clob,
    }
}

/// A column as tables keep it.
fn kept_column(column: &ColumnText) -> Result<Column, Memory>
    ensures kept { IfOk result (λ kept. sort_sized column.now.sort ≡ true → kept ≡ column_of column.now) }
    ensures named { IfOk result (λ kept. IsName kept.name) }
{
    Ok(Column {
        name: column.name.clone()?,
        sort: kept_sort(column.sort),
    })
}

/// The columns as tables keep them.
fn kept_columns(alloc: Global, columns: &[ColumnText]) -> Result<Vec<Column>, Memory>
    ensures kept { IfOk result (λ kept. all_sized columns.now ≡ true → kept.items ≡ map column_of columns.now) }
    ensures same { IfOk result (λ kept. length kept.items ≡ length columns.now) }
    ensures named { IfOk result (λ kept. All (λ (k : Column). IsName k.name) kept.items) }
{
    let mut kept = Vec::new(alloc);
    for column in columns {
        kept.push(kept_column(column)?)?;
    }
    Ok(kept)
}

/// The batch that makes a table.
fn table_batch(alloc: Global, table: &Name, columns: &[ColumnText]) -> Result<Batch, Memory>
    requires { length columns.now ≤ 16 }
    ensures changes { IfOk result (λ batch. all_sized columns.now ≡ true → batch ≡ spell (table_changes table.now (map column_of columns.now))) }
    ensures named { IfOk result (λ batch. all_sized columns.now ≡ true → All (λ (k : Column). IsName k.name) (map column_of columns.now)) }
    ensures shaped { IfOk result (λ batch. AreShaped HasTableValue batch) }
{
    let columns = kept_columns(alloc, columns)?;
    let mut batch = Batch::new(alloc);
    create(alloc, &mut batch, table, &columns)?;
    Ok(batch)
}

/// What CREATE TABLE comes to.
fn table_plan<'a, K: Keeper>(
    alloc: Global,
    keeper: &mut K,
    table: &'a Name,
    columns: &[ColumnText],
) -> Result<Plan<'a>, KeepFault>
    requires { (K.view keeper.old).ready }
    ensures plan { Plans K.view keeper.old result (λ m. create_table_effect m table.now columns.now) table_created }
    ensures entries { IfOk result IsStorePlan }
    ensures reads { OnlyReads K.view keeper.old keeper.new result }
{
    // Read so that the proof knows that it is a name.
    let _named = table.as_str();
    let there = has_table(alloc, keeper, table)?;
    let many = has_most_tables(alloc, keeper)?;
    if let Some(fault) = table_fault(there, many, table, columns) {
        return Ok(Plan::Refused(fault));
    }
    let batch = table_batch(alloc, table, columns)?;
    Ok(Plan::Done(batch))
}

/// CREATE TABLE: makes a table without rows. Its cost is that of the entries of all tables, and grows with the square of the columns
/// written, also past 16, since two of one name are refused before too many are.
pub fn create_table<K: Keeper>(
    alloc: Global,
    keeper: &mut K,
    table: &Name,
    columns: &[ColumnText],
) -> Result<Vec<u8>, KeepFault>
    requires { AcceptsStatements (K.view keeper.old) }
    ensures { Replies K.view keeper.old keeper.new result (λ m. create_table_effect m table.now columns.now) (Some (line_for_all table_created)) }
{
    match table_plan(alloc, keeper, table, columns) {
        Ok(plan) => carry_out(alloc, keeper, plan, b"Table created.\n"),
        Err(fault) => Err(fault),
    }
}
