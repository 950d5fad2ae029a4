//! The rows of a table that meet conditions.
#![tactic(auto, using(ct_keep::specs::laws::Composing::reads_on, ct_keep::specs::laws::Composing::reads_short))]

ghost use Rattle.std.specs.Prelude.{ℕ, ◌≡◌, List, map, is_some, IfOk, IfSome, OnOk};
ghost use Rattle.ct_keep.specs.KeeperViews.{OnlyReads, Told};
ghost use Rattle.ct_keep.specs.Looks.{LooksAtMost};
ghost use Rattle.ct_entry.specs.Listings.{number_of};
ghost use Rattle.tb_table.specs.Tables.{Tables};
ghost use Rattle.db_state.specs.States.{OverStates, Sees};
ghost use Rattle.db_rows.specs.Meeting.{meeting_keys};
ghost use Rattle.db_rows.specs.Reading.{IsOwn, OverColumns};
ghost use Rattle.db_rows.specs.Walking.{AddsIfMet, AreOwn, FindsNext, is_past_greatest as past_greatest, met_keys, met_numbers, next_row_looks, with_met};

use crate::bounds::{KeyBounds, key_bounds, start};
use crate::meeting::read_if_met;
use crate::reading::{RowRead, Shown};
use ct_base::{Memory, Name, RowKey};
use ct_keep::{KeepFault, Keeper};
use st_parse::Cond;
use std::alloc::Global;
use tb_table::{Column, next_row};

/// A row that meets conditions, with what is kept of what was read of it.
#[derive(Drop)]
pub struct MetRow {
    pub key: RowKey,
    pub read: RowRead,
}

/// Whether no key after this one lies within the bounds.
fn is_past_greatest(after: Option<RowKey>, bounds: KeyBounds) -> bool
    ensures { result ≡ past_greatest (number_of after) bounds.greatest.0 }
{
    match after {
        Some(last) => last.0 >= bounds.greatest.0,
        None => false,
    }
}

/// The next key of the table after one, where it lies within the bounds. Nothing is read where the last key was the greatest that
/// does.
fn next_within<K: Keeper>(
    alloc: Global,
    keeper: &mut K,
    table: &Name,
    bounds: KeyBounds,
    after: Option<RowKey>,
) -> Result<Option<RowKey>, KeepFault>
    requires { (K.view keeper.old).ready }
    ensures next { OverStates K.view keeper.old (λ m c. FindsNext m.tables table.now (number_of after) bounds.greatest.0 result) }
    ensures reads { OnlyReads K.view keeper.old keeper.new result }
    ensures at_most { Told K.view keeper.old (λ m. LooksAtMost K.view keeper.old keeper.new (next_row_looks table.now after m)) }
{
    if is_past_greatest(after, bounds) {
        return Ok(None);
    }
    let Some(row) = next_row(alloc, keeper, table, after)? else {
        return Ok(None);
    };
    if row.0 > bounds.greatest.0 {
        return Ok(None);
    }
    Ok(Some(row))
}

/// Puts a row, if it meets the conditions.
fn push_met(rows: &mut Vec<MetRow>, key: RowKey, read: Option<RowRead>) -> Result<(), Memory>
    ensures keys { OnOk result (met_keys rows.new.items ≡ with_met (is_some read) key (met_keys rows.old.items)) }
    ensures own { (ts : Tables) (t : List ℕ) → IfSome read (IsOwn ts t key) → OnOk result (AreOwn ts t rows.old.items → AreOwn ts t rows.new.items) }
{
    let Some(read) = read else {
        return Ok(());
    };
    rows.push(MetRow { key, read })?;
    Ok(())
}

/// Puts a row, if it meets all conditions.
fn note_row<K: Keeper>(
    alloc: Global,
    keeper: &mut K,
    table: &Name,
    columns: &[Column],
    conds: &[Cond],
    shown: &Shown,
    rows: &mut Vec<MetRow>,
    key: RowKey,
) -> Result<(), KeepFault>
    requires { (K.view keeper.old).ready }
    ensures rows { OverColumns K.view keeper.old table.now columns.now (λ x. OnOk result (AddsIfMet x conds.now key rows.old.items rows.new.items)) }
    ensures own { OverStates K.view keeper.old (λ m c. OnOk result (AreOwn m.tables table.now rows.old.items → AreOwn m.tables table.now rows.new.items)) }
    ensures reads { OnlyReads K.view keeper.old keeper.new result }
{
    let read = read_if_met(alloc, keeper, table, columns, conds, shown, key)?;
    push_met(rows, key, read)?;
    Ok(())
}

/// The rows of a table that meet all conditions, in order of their keys, each with what is kept of what was read of it.
///
/// The conditions on the key bound the keys from below and from above. Its cost is that of a walk over the rows between the bounds,
/// of the row behind them unless one stands at the upper bound, and of what the conditions are on in each of these rows. So a row by
/// its key costs the same in a table of any size. It never answers Full.
pub fn rows_meeting<K: Keeper>(
    alloc: Global,
    keeper: &mut K,
    table: &Name,
    columns: &[Column],
    conds: &[Cond],
    shown: &Shown,
) -> Result<Vec<MetRow>, KeepFault>
    requires { (K.view keeper.old).ready }
    ensures keys { OverColumns K.view keeper.old table.now columns.now (λ x. IfOk result (λ rows. met_numbers rows.items ≡ meeting_keys x conds.now)) }
    ensures own { Sees K.view keeper.old result (λ m rows. AreOwn m.tables table.now rows.items) }
    ensures reads { OnlyReads K.view keeper.old keeper.new result }
{
    let bounds = key_bounds(conds, columns);
    let mut rows = Vec::new(alloc);
    let mut after = start(bounds);
    'steps: for _ in 0..u64::MAX {
        let Some(row) = next_within(alloc, keeper, table, bounds, after)? else {
            return Ok(rows);
        };
        note_row(alloc, keeper, table, columns, conds, shown, &mut rows, row)?;
        after = Some(row);
    }
    // no table has so many rows
    Err(KeepFault::Memory)
}

/// The keys of rows.
fn keys_of(alloc: Global, rows: &[MetRow]) -> Result<Vec<RowKey>, Memory>
    ensures { IfOk result (λ keys. keys.items ≡ met_keys rows.now) }
{
    let mut keys = Vec::new(alloc);
    for row in rows {
        keys.push(row.key)?;
    }
    Ok(keys)
}

/// The keys of the rows of a table that meet all conditions, in order.
///
/// It costs what `rows_meeting` does.
pub fn keys_meeting<K: Keeper>(
    alloc: Global,
    keeper: &mut K,
    table: &Name,
    columns: &[Column],
    conds: &[Cond],
) -> Result<Vec<RowKey>, KeepFault>
    requires { (K.view keeper.old).ready }
    ensures keys { OverColumns K.view keeper.old table.now columns.now (λ x. IfOk result (λ rows. map (λ row. row.0) rows.items ≡ meeting_keys x conds.now)) }
    ensures reads { OnlyReads K.view keeper.old keeper.new result }
{
    let rows = rows_meeting(alloc, keeper, table, columns, conds, &Shown::Keys)?;
    let keys = keys_of(alloc, &rows)?;
    Ok(keys)
}
