//! DELETE.
#![tactic(auto, using(ct_keep::specs::laws::Composing::reads_on, ct_keep::specs::laws::Composing::reads_short, ct_keep::specs::laws::Composing::accepts_on))]

ghost use Rattle.std.specs.Prelude.{◌≡◌, ◌≤◌, IfOk, Some, None, Err, length};
ghost use Rattle.ct_base.specs.Limits.{column_limit};
ghost use Rattle.ct_keep.specs.Content.{after, weight};
ghost use Rattle.ct_keep.specs.KeeperViews.{Finds, OnlyReads, Told};
ghost use Rattle.ct_entry.specs.Keys.{at};
ghost use Rattle.ix_indexes.specs.Noting.{AllCanTell, AllDrop, AreHeld, noted_indexes};
ghost use Rattle.db_rows.specs.Checking.{check_conds};
ghost use Rattle.db_state.specs.Effects.{Effect, Checks};
ghost use Rattle.db_state.specs.Plans.{IsNoHeavier, IsPlanOf, IsStorePlan, Replies};
ghost use Rattle.db_state.specs.Shapes.{AcceptsStatements, AreStoreChanges};
ghost use Rattle.db_change.specs.Noting.{WhereRow, WhereRows};
ghost use Rattle.db_change.specs.Deleting.{delete_from as delete_from_effect, rows_deleted, TakesFromTable, TakesRow, TakesRows};

use crate::noting::{indexes_on, lost_notes, values_needed};
use ct_base::{COLUMN_LIMIT, Name, RowKey};
use ct_keep::{Batch, KeepFault, Keeper};
use db_cond::{Fault, rows_line};
use db_rows::{conds_fault, keys_meeting};
use db_state::{Plan, carry_out, table_columns};
use ix_indexes::{RowEvent, TableIndex, row_notes};
use st_parse::Cond;
use std::alloc::Global;
use tb_table::{Column, delete};

/// The changes by which a row goes from its table and from each of the indexes.
fn row_changes<K: Keeper>(
    alloc: Global,
    keeper: &mut K,
    table: &Name,
    columns: &[Column],
    indexes: &[TableIndex],
    row: RowKey,
) -> Result<Batch, KeepFault>
    requires ready { (K.view keeper.old).ready }
    requires few { length columns.now ≤ column_limit }
    requires can { AllCanTell indexes.now }
    ensures changes { WhereRow K.view keeper.old table.now columns.now row.0 (λ m c x. AreHeld c (noted_indexes indexes.now) → IfOk result (TakesRow m c table.now columns.now indexes.now row.0)) }
    ensures drops { Finds K.view keeper.old result (λ m batch. AllDrop batch) }
    ensures shaped { IfOk result AreStoreChanges }
    ensures reads { OnlyReads K.view keeper.old keeper.new result }
{
    let old = values_needed(alloc, keeper, indexes, table, columns, row)?;
    let mut batch = Batch::new(alloc);
    delete(alloc, &mut batch, table, columns, row)?;
    let was = old.as_slice();
    let notes = row_notes(alloc, keeper, indexes, row, RowEvent::Goes(was))?;
    batch.append(notes)?;
    Ok(batch)
}

/// The changes by which rows go from their table and from each of the indexes.
fn rows_changes<K: Keeper>(
    alloc: Global,
    keeper: &mut K,
    table: &Name,
    columns: &[Column],
    indexes: &[TableIndex],
    rows: &[RowKey],
) -> Result<Batch, KeepFault>
    requires ready { (K.view keeper.old).ready }
    requires few { length columns.now ≤ column_limit }
    requires can { AllCanTell indexes.now }
    ensures changes { WhereRows K.view keeper.old table.now columns.now rows.now (λ m c rs. AreHeld c (noted_indexes indexes.now) → IfOk result (TakesRows m c table.now columns.now indexes.now rs)) }
    ensures drops { Finds K.view keeper.old result (λ m batch. AllDrop batch) }
    ensures shaped { IfOk result AreStoreChanges }
    ensures reads { OnlyReads K.view keeper.old keeper.new result }
{
    let mut batch = Batch::new(alloc);
    for row in rows {
        let changes = row_changes(alloc, keeper, table, columns, indexes, *row)?;
        batch.append(changes)?;
    }
    Ok(batch)
}

/// The changes by which rows go from their table and from each index on it, of which those that are tidy are so no more.
fn delete_batch<K: Keeper>(
    alloc: Global,
    keeper: &mut K,
    table: &Name,
    columns: &[Column],
    rows: &[RowKey],
) -> Result<Batch, KeepFault>
    requires ready { (K.view keeper.old).ready }
    requires few { length columns.now ≤ column_limit }
    ensures changes { WhereRows K.view keeper.old table.now columns.now rows.now (λ m c rs. IfOk result (TakesFromTable m c table.now columns.now rs)) }
    ensures light { Finds K.view keeper.old result (λ m batch. weight (after batch m) ≤ weight m) }
    ensures shaped { IfOk result AreStoreChanges }
    ensures reads { OnlyReads K.view keeper.old keeper.new result }
{
    let indexes = indexes_on(alloc, keeper, table, columns)?;
    let mut batch = lost_notes(alloc, keeper, &indexes, rows)?;
    let changes = rows_changes(alloc, keeper, table, columns, &indexes, rows)?;
    batch.append(changes)?;
    Ok(batch)
}

/// The first check that fails of the conditions. No state has a table of more than 16 columns, but a store that stands for no
/// state may; it is refused, since `tb_table::delete` takes no more columns.
fn delete_fault<'a>(conds: &'a [Cond], columns: &[Column]) -> Option<Fault<'a>>
    ensures checks { length columns.now ≤ column_limit → (done : Effect) → Checks result (check_conds columns.now conds.now done) done }
    ensures few { result ≡ None → length columns.now ≤ column_limit }
{
    if columns.len() > COLUMN_LIMIT {
        return Some(Fault::WrongValues);
    }
    conds_fault(conds, columns)
}

/// What a DELETE comes to, and how many rows go by it.
fn delete_plan<'a, K: Keeper>(
    alloc: Global,
    keeper: &mut K,
    table: &'a Name,
    conds: &'a [Cond],
) -> Result<(Plan<'a>, usize), KeepFault>
    requires { (K.view keeper.old).ready }
    ensures plan { IfOk result (λ made. IsPlanOf (λ m. delete_from_effect m table.now conds.now) (rows_deleted made.1) (K.view keeper.old) made.0) }
    ensures entries { IfOk result (λ made. IsStorePlan made.0) }
    ensures light { Finds K.view keeper.old result (λ m made. IsNoHeavier m made.0) }
    ensures reads { OnlyReads K.view keeper.old keeper.new result }
{
    let Some(columns) = table_columns(alloc, keeper, table)? else {
        return Ok((Plan::Refused(Fault::UnknownName(table.as_str())), 0));
    };
    if let Some(fault) = delete_fault(conds, &columns) {
        return Ok((Plan::Refused(fault), 0));
    }
    let rows = keys_meeting(alloc, keeper, table, &columns, conds)?;
    let batch = delete_batch(alloc, keeper, table, &columns, &rows)?;
    Ok((Plan::Done(batch), rows.len()))
}

/// DELETE: takes the rows that meet all conditions out of their table and out of the indexes on it, by at most one commit. There is
/// always room for it, so Memory and Disk are the only errors.
///
/// Its cost is that of `keys_meeting` for the conditions, of the entries of all indexes, of one look-up for each CONTEXT index on the table,
/// which is tidy no more where a row goes, and of what each row has in each index on the table: in a CONTEXT index the look-up of its document, in a rule index that of its rule, and in a catalogue the reading of its text, for
/// which its values are looked up once. A DELETE from a table without catalogues reads no text. So a DELETE of one row by its key costs the
/// same in a table of any size. Its changes take memory: for each row one, and one more for each column with texts, and at most two for each
/// CONTEXT index; for each rule index three, and one for each key under which its rule is found; and for each catalogue as many as the row
/// has words, in the plain sub-index and in each other.
pub fn delete_from<K: Keeper>(
    alloc: Global,
    keeper: &mut K,
    table: &Name,
    conds: &[Cond],
) -> Result<Vec<u8>, KeepFault>
    requires { AcceptsStatements (K.view keeper.old) }
    ensures done { Replies K.view keeper.old keeper.new result (λ m. delete_from_effect m table.now conds.now) (Some rows_deleted) }
    ensures never_full { Told K.view keeper.old (λ m. result ≡ Err KeepFault.Full → ⊥) }
{
    match delete_plan(alloc, keeper, table, conds) {
        Ok((plan, rows)) => {
            let line = rows_line(alloc, rows, b"deleted.\n")?;
            carry_out(alloc, keeper, plan, &line)
        }
        Err(fault) => Err(fault),
    }
}
