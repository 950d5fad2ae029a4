//! The rows that views show, index by index.
#![tactic(auto, using(ct_keep::specs::laws::Composing::reads_on, ct_keep::specs::laws::Composing::reads_short))]

ghost use Rattle.std.specs.Prelude.{◌≡◌, ◌++◌, map, IfOk, OnOk};
ghost use Rattle.std.specs.List.{flat_map};
ghost use Rattle.ct_keep.specs.KeeperViews.{OnlyReads};
ghost use Rattle.rule_index.specs.Listed.{listed_errors};
ghost use Rattle.db_cond.specs.Lines.{line as line_text};
ghost use Rattle.db_state.specs.States.{OverStates, Sees};
ghost use Rattle.db_select.specs.declared.views.View.TheVariants.{Errors, Waiting};
ghost use Rattle.db_select.specs.Views.{view_line, with_its_fault, without_fault};
ghost use Rattle.db_select.specs.ViewRows.{key_numbers, keys_at, rows_at, shown_keys, shown_row, shown_rows, text_at, text_or_none};

use crate::views::View;
use ct_base::{Memory, Name, RowKey, Text, Value};
use ct_keep::{KeepFault, Keeper};
use db_cond::{line, no_rows};
use db_state::fixed_reply;
use ix_docmap::pending;
use rule_index::{RuleError, Rules};
use std::alloc::Global;

/// A row of an index that a view shows.
#[derive(Drop)]
pub(crate) struct ShownRow {
    pub key: RowKey,
    /// Of a faulty rule, the text of its fault.
    pub fault: Option<Text>,
}

/// Rows without a fault.
fn without_faults(alloc: Global, rows: Vec<RowKey>) -> Result<Vec<ShownRow>, Memory>
    ensures { IfOk result (λ shown. shown_rows shown.items ≡ map (λ row. without_fault row.0) rows.items) }
{
    let mut shown = Vec::new(alloc);
    for key in rows {
        shown.push(ShownRow { key, fault: None })?;
    }
    Ok(shown)
}

/// The row of a faulty rule.
fn with_fault(error: RuleError) -> ShownRow
    ensures { shown_row result ≡ with_its_fault (error.key.0, error.fault) }
{
    let RuleError { key, fault } = error;
    ShownRow {
        key,
        fault: Some(fault),
    }
}

/// The rows of faulty rules.
fn with_faults(alloc: Global, errors: Vec<RuleError>) -> Result<Vec<ShownRow>, Memory>
    ensures { IfOk result (λ shown. shown_rows shown.items ≡ map with_its_fault (listed_errors errors.items)) }
{
    let mut shown = Vec::new(alloc);
    for error in errors {
        shown.push(with_fault(error))?;
    }
    Ok(shown)
}

/// The rows that wait in an index, in order of their keys.
fn waiting_rows<K: Keeper>(
    alloc: Global,
    keeper: &mut K,
    index: &Name,
) -> Result<Vec<ShownRow>, KeepFault>
    requires { (K.view keeper.old).ready }
    ensures rows { Sees K.view keeper.old result (λ m rows. shown_rows rows.items ≡ rows_at Waiting m.indexes index.now) }
    ensures reads { OnlyReads K.view keeper.old keeper.new result }
{
    let keys = pending(alloc, keeper, index)?;
    let rows = without_faults(alloc, keys)?;
    Ok(rows)
}

/// The faulty rules of an index, in order of their keys.
fn faulty_rows<K: Keeper>(
    alloc: Global,
    keeper: &mut K,
    index: &Name,
) -> Result<Vec<ShownRow>, KeepFault>
    requires { (K.view keeper.old).ready }
    ensures rows { Sees K.view keeper.old result (λ m rows. shown_rows rows.items ≡ rows_at Errors m.indexes index.now) }
    ensures reads { OnlyReads K.view keeper.old keeper.new result }
{
    let errors = Rules::errors(alloc, keeper, index)?;
    let rows = with_faults(alloc, errors)?;
    Ok(rows)
}

/// The rows of an index that a view shows, in order of their keys.
fn rows_of<K: Keeper>(
    alloc: Global,
    keeper: &mut K,
    view: View,
    index: &Name,
) -> Result<Vec<ShownRow>, KeepFault>
    requires { (K.view keeper.old).ready }
    ensures rows { Sees K.view keeper.old result (λ m rows. shown_rows rows.items ≡ rows_at view m.indexes index.now) }
    ensures reads { OnlyReads K.view keeper.old keeper.new result }
{
    match view {
        View::Waiting => waiting_rows(alloc, keeper, index),
        View::Errors => faulty_rows(alloc, keeper, index),
    }
}

/// Puts the line of a row of an index.
fn push_line(alloc: Global, lines: &mut Vec<u8>, index: &Name, row: &ShownRow) -> Result<(), Memory>
    ensures { OnOk result (lines.new.items ≡ lines.old.items ++ line_text (view_line index.now (shown_row row.now))) }
{
    let index = Value::Text(Text::of(alloc, index.as_str())?);
    let key = Value::Number(row.key.0);
    match &row.fault {
        Some(fault) => {
            let fault = Value::Text(Text::of(alloc, fault.as_str())?);
            line(alloc, lines, &[index, key, fault])
        }
        None => line(alloc, lines, &[index, key]),
    }
}

/// Puts the lines of rows of an index.
fn push_lines(
    alloc: Global,
    lines: &mut Vec<u8>,
    index: &Name,
    rows: &[ShownRow],
) -> Result<(), Memory>
    ensures { OnOk result (lines.new.items ≡ lines.old.items ++ flat_map (λ row. line_text (view_line index.now (shown_row row))) rows.now) }
{
    for row in rows {
        push_line(alloc, lines, index, row)?;
    }
    Ok(())
}

/// Puts the lines of the rows of an index that a view shows.
fn push_view<K: Keeper>(
    alloc: Global,
    keeper: &mut K,
    lines: &mut Vec<u8>,
    view: View,
    index: &Name,
) -> Result<(), KeepFault>
    requires { (K.view keeper.old).ready }
    ensures lines { OverStates K.view keeper.old (λ m c. OnOk result (lines.new.items ≡ lines.old.items ++ text_at view m.indexes index.now)) }
    ensures reads { OnlyReads K.view keeper.old keeper.new result }
{
    let rows = rows_of(alloc, keeper, view, index)?;
    push_lines(alloc, lines, index, &rows)?;
    Ok(())
}

/// The lines of the rows of some indexes that a view shows.
pub(crate) fn view_lines<K: Keeper>(
    alloc: Global,
    keeper: &mut K,
    view: View,
    names: &[Name],
) -> Result<Vec<u8>, KeepFault>
    requires { (K.view keeper.old).ready }
    ensures lines { Sees K.view keeper.old result (λ m lines. lines.items ≡ flat_map (text_at view m.indexes) names.now) }
    ensures reads { OnlyReads K.view keeper.old keeper.new result }
{
    let mut lines = Vec::new(alloc);
    for name in names {
        push_view(alloc, keeper, &mut lines, view, name)?;
    }
    Ok(lines)
}

/// Puts the keys of rows.
fn append(keys: &mut Vec<RowKey>, rows: &[ShownRow]) -> Result<(), Memory>
    ensures { OnOk result (key_numbers keys.new.items ≡ key_numbers keys.old.items ++ shown_keys rows.now) }
{
    for row in rows {
        keys.push(row.key)?;
    }
    Ok(())
}

/// Puts the keys of the rows of an index that a view shows.
fn push_keys<K: Keeper>(
    alloc: Global,
    keeper: &mut K,
    keys: &mut Vec<RowKey>,
    view: View,
    index: &Name,
) -> Result<(), KeepFault>
    requires { (K.view keeper.old).ready }
    ensures keys { OverStates K.view keeper.old (λ m c. OnOk result (key_numbers keys.new.items ≡ key_numbers keys.old.items ++ keys_at view m.indexes index.now)) }
    ensures reads { OnlyReads K.view keeper.old keeper.new result }
{
    let rows = rows_of(alloc, keeper, view, index)?;
    append(keys, &rows)?;
    Ok(())
}

/// The keys of the rows of some indexes that a view shows.
pub(crate) fn view_keys<K: Keeper>(
    alloc: Global,
    keeper: &mut K,
    view: View,
    names: &[Name],
) -> Result<Vec<RowKey>, KeepFault>
    requires { (K.view keeper.old).ready }
    ensures keys { Sees K.view keeper.old result (λ m keys. key_numbers keys.items ≡ flat_map (keys_at view m.indexes) names.now) }
    ensures reads { OnlyReads K.view keeper.old keeper.new result }
{
    let mut keys = Vec::new(alloc);
    for name in names {
        push_keys(alloc, keeper, &mut keys, view, name)?;
    }
    Ok(keys)
}

/// The lines, or that there is none.
pub(crate) fn or_none(alloc: Global, lines: Vec<u8>) -> Result<Vec<u8>, Memory>
    ensures { IfOk result (λ reply. reply.items ≡ text_or_none lines.items) }
{
    if lines.is_empty() {
        return fixed_reply(alloc, no_rows());
    }
    Ok(lines)
}
