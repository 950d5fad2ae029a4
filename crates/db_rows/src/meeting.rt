//! Whether a row meets conditions.
#![tactic(auto, using(ct_keep::specs::laws::Composing::reads_on, ct_keep::specs::laws::Composing::reads_short))]

ghost use Rattle.std.specs.Prelude.{◌≡◌, is_some, IfOk, IfSome, OnOk, Some};
ghost use Rattle.ct_keep.specs.KeeperViews.{OnlyReads};
ghost use Rattle.ct_keep.specs.Looks.{LooksAtMost};
ghost use Rattle.db_state.specs.States.{Sees};
ghost use Rattle.db_rows.specs.Bounds.{holds_by};
ghost use Rattle.db_rows.specs.Reading.{IsOwn, IsReadOf, OverColumns, OverColumnsOf, OverRow, cond_looks, texts_for};
ghost use Rattle.db_rows.specs.Meeting.{holds_of as holds_of_value, key_meets};
ghost use Rattle.db_rows.specs.Texts.{ReadsOnce, TriesRow, cond_among, conds_among};

use crate::checking::cond_column;
use crate::reading::{RowRead, Shown, column_value};
use crate::sources::source_of;
use ct_base::{Name, RowKey, Value};
use ct_keep::{KeepFault, Keeper};
use db_cond::holds;
use st_parse::Cond;
use std::alloc::Global;
use tb_table::Column;

/// Whether the condition holds of the value; where there is none, it doesn't.
fn holds_of(cond: &Cond, value: &Option<Value>) -> bool
    ensures { result ≡ holds_of_value cond.now value.now }
{
    match value {
        Some(value) => holds(cond, value),
        None => false,
    }
}

/// Whether a row meets one condition.
fn meets_one<K: Keeper>(
    alloc: Global,
    keeper: &mut K,
    table: &Name,
    columns: &[Column],
    cond: &Cond,
    row: RowKey,
    read: &mut RowRead,
) -> Result<bool, KeepFault>
    requires { (K.view keeper.old).ready }
    ensures met { OverRow K.view keeper.old table.now row.0 read.old (λ vs. IfOk result (λ met. met ≡ holds_by columns.now cond.now row.0 vs)) }
    ensures read { OverRow K.view keeper.old table.now row.0 read.old (λ vs. OnOk result (IsReadOf vs read.new)) }
    ensures reads { OnlyReads K.view keeper.old keeper.new result }
    ensures at_most { LooksAtMost K.view keeper.old keeper.new (cond_looks columns.now cond.now read.old) }
    ensures once { ReadsOnce K.view keeper.old keeper.new read.old read.new result (λ places. cond_among places columns.now cond.now) }
{
    let source = source_of(cond_column(cond), columns);
    let value = column_value(alloc, keeper, table, row, read, source)?;
    Ok(holds_of(cond, &value))
}

/// Whether a row of a table meets all conditions, which are tried one after the other up to the first that doesn't hold.
///
/// It reads at most one text for each condition that is on a text, none that `read` has, and no posting. It never answers Full.
fn meets<K: Keeper>(
    alloc: Global,
    keeper: &mut K,
    table: &Name,
    columns: &[Column],
    conds: &[Cond],
    row: RowKey,
    read: &mut RowRead,
) -> Result<bool, KeepFault>
    requires { (K.view keeper.old).ready }
    ensures met { OverColumnsOf K.view keeper.old table.now columns.now row.0 read.old (λ x. IfOk result (λ met. met ≡ key_meets x conds.now row.0)) }
    ensures read { OverRow K.view keeper.old table.now row.0 read.old (λ vs. OnOk result (IsReadOf vs read.new)) }
    ensures reads { OnlyReads K.view keeper.old keeper.new result }
    ensures at_most { LooksAtMost K.view keeper.old keeper.new (texts_for columns.now conds.now) }
    ensures once { ReadsOnce K.view keeper.old keeper.new read.old read.new result (λ places. conds_among places columns.now conds.now) }
{
    for cond in conds {
        if !meets_one(alloc, keeper, table, columns, cond, row, read)? {
            return Ok(false);
        }
    }
    Ok(true)
}

/// What is kept of what was read of a row of a table to see that it meets all conditions; None where it doesn't.
///
/// It reads nothing but what the conditions are on, each text of that once, and no posting. The conditions are tried one after the other, up
/// to the first that doesn't hold. Without conditions it reads nothing, and takes no memory. It never answers Full.
pub fn read_if_met<K: Keeper>(
    alloc: Global,
    keeper: &mut K,
    table: &Name,
    columns: &[Column],
    conds: &[Cond],
    shown: &Shown,
    row: RowKey,
) -> Result<Option<RowRead>, KeepFault>
    requires { (K.view keeper.old).ready }
    ensures met { OverColumns K.view keeper.old table.now columns.now (λ x. IfOk result (λ read. is_some read ≡ key_meets x conds.now row.0)) }
    ensures own { Sees K.view keeper.old result (λ m read. IfSome read (IsOwn m.tables table.now row)) }
    ensures reads { OnlyReads K.view keeper.old keeper.new result }
    ensures at_most { LooksAtMost K.view keeper.old keeper.new (texts_for columns.now conds.now) }
    ensures once { TriesRow K.view keeper.old keeper.new shown.now columns.now conds.now result }
{
    let mut read = RowRead::nothing(alloc);
    if !meets(alloc, keeper, table, columns, conds, row, &mut read)? {
        return Ok(None);
    }
    let kept = read.kept(alloc, shown)?;
    Ok(Some(kept))
}
