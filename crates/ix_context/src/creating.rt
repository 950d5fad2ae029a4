//! New indexes.
#![tactic(auto, using(ct_keep::specs::laws::Composing::reads_on, ct_keep::specs::laws::Composing::reads_short))]

ghost use Rattle.std.specs.Prelude.{◌≡◌, ◌+◌, ◌≤◌, ◌<◌, ◌^◌, IfOk, IfSome, OnOk, OnErr, Some, Err, filter, length, map, true};
ghost use Rattle.ct_keep.specs.KeeperViews.{OnlyReads, ReadsKeeper};
ghost use Rattle.ct_entry.specs.Shapes.{AreShaped};
ghost use Rattle.tx_settings.specs.Attributes.{can_be_set};
ghost use Rattle.ix_kinds.specs.Rows.{table_at};
ghost use Rattle.ix_context.specs.Indexes.{is_key_in, mark_limit, rows_within};
ghost use Rattle.ix_context.specs.Changes.{Adds, mark_rows_changes, mark_each_changes};
ghost use Rattle.ix_context.specs.Faults.{context_fault_of};
ghost use Rattle.ix_context.specs.Sees.{ToldTables, SeesTables, AreCreateChanges, IsTooManyOnly, created_changes_of, given_after_create};
ghost use Rattle.ix_context.specs.Shapes.{HasContextValue, KeepsShape};

use crate::entries::put_new_index;
use crate::faults::{ContextFault, fault_of_reads};
use crate::marking::{mark_next, number_after};
use crate::ranges::KeyRange;
use crate::texts::gather_texts;
use ct_base::{Memory, Name, RowKey};
use ct_entry::{Kind, row_keys};
use ct_keep::{Batch, KeepFault, Keeper};
use std::alloc::Global;
use std::thread::Threads;
use tb_table::Target;
use tx_settings::Prefs;

/// The row keys that lie in a range, in their order.
fn keys_in_range(alloc: Global, rows: &[RowKey], range: KeyRange) -> Result<Vec<RowKey>, Memory>
    ensures { IfOk result (λ kept. map (λ r. r.0) kept.items ≡ filter (is_key_in range) (map (λ r. r.0) rows.now)) }
{
    let mut kept = Vec::new(alloc);
    for row in rows {
        if range.contains(*row) {
            kept.push(*row)?;
        }
    }
    Ok(kept)
}

/// The keys of a table's rows that lie in a range, in order.
fn rows_within<K: Keeper>(
    alloc: Global,
    keeper: &mut K,
    table: &Name,
    range: KeyRange,
) -> Result<Vec<RowKey>, KeepFault>
    requires { (K.view keeper.old).ready }
    ensures rows { SeesTables K.view keeper.old result (λ ts rows. map (λ r. r.0) rows.items ≡ rows_within (table_at ts table.now) range) }
    ensures reads { OnlyReads K.view keeper.old keeper.new result }
{
    let rows = row_keys(alloc, keeper, Kind::RowNumbers, table)?;
    let kept = keys_in_range(alloc, &rows, range)?;
    Ok(kept)
}

/// Adds the changes by which rows become documents of an index, the first of them the document 1.
fn mark_each(
    alloc: Global,
    changes: &mut Batch,
    index: &Name,
    rows: &[RowKey],
) -> Result<(), Memory>
    requires { 1 + length rows.now < 2 ^ 32 }
    ensures changes { Adds changes.old changes.new result (mark_each_changes index.now 1 (map (λ r. r.0) rows.now)) }
    ensures shaped { KeepsShape changes.old changes.new result }
{
    let mut document = 1;
    for row in rows {
        mark_next(alloc, changes, index, document, *row)?;
        document += 1;
    }
    Ok(())
}

/// Adds the changes by which rows become documents of an index on this target that reads texts by these preferences, with their
/// postings, the first of them the document 1. All texts are read before the first change is added.
fn mark_rows<R: Threads + Sync, K: Keeper>(
    rt: &R,
    alloc: Global,
    degree: u32,
    keeper: &mut K,
    changes: &mut Batch,
    index: &Name,
    target: &Target,
    prefs: &Prefs,
    rows: &[RowKey],
) -> Result<(), KeepFault>
    requires ready { (K.view keeper.old).ready }
    requires room { 1 + length rows.now < 2 ^ 32 }
    requires set { can_be_set prefs.now.lexer ≡ true }
    ensures changes { ToldTables K.view keeper.old (λ ts. Adds changes.old changes.new result (mark_rows_changes ts index.now target.now prefs.now 1 rows.now)) }
    ensures shaped { KeepsShape changes.old changes.new result }
    ensures reads { OnlyReads K.view keeper.old keeper.new result }
{
    // Read so that the proof knows that it is a name.
    let _named = index.as_str();
    let gathered = gather_texts(rt, alloc, degree, keeper, target, prefs, 1, rows)?;
    mark_each(alloc, changes, index, rows)?;
    gathered.into_changes(alloc, changes, index)?;
    Ok(())
}

/// The changes of a new index. None where more rows lie in its range than there are numbers.
fn changes_of_create<R: Threads + Sync, K: Keeper>(
    rt: &R,
    alloc: Global,
    degree: u32,
    keeper: &mut K,
    index: &Name,
    target: &Target,
    prefs: &Prefs,
    range: KeyRange,
) -> Result<Option<Batch>, KeepFault>
    requires ready { (K.view keeper.old).ready }
    requires set { can_be_set prefs.now.lexer ≡ true }
    ensures changes { SeesTables K.view keeper.old result (λ ts. AreCreateChanges ts index.now target.now prefs.now range) }
    ensures shaped { IfOk result (λ found. IfSome found (AreShaped HasContextValue)) }
    ensures reads { OnlyReads K.view keeper.old keeper.new result }
{
    let rows = rows_within(alloc, keeper, &target.table, range)?;
    let Some(next) = number_after(1, rows.len()) else {
        return Ok(None);
    };
    let mut changes = Batch::new(alloc);
    put_new_index(alloc, &mut changes, index, target, prefs, next)?;
    mark_rows(
        rt,
        alloc,
        degree,
        keeper,
        &mut changes,
        index,
        target,
        prefs,
        &rows,
    )?;
    Ok(Some(changes))
}

/// Adds the changes of a new index on this target, which gets a copy of the preferences. Each row that the table has in the
/// range becomes a document of it, in order of the keys from 1 on, and the words of these rows' texts in all streams and their
/// sections get postings. Up to `degree` threads read the texts.
///
/// Its cost is the length of these texts, times a logarithm, and a scan of the table's keys. It holds the rows of postings of all, and one
/// text; of several threads a portion of texts of a mebibyte, and its postings. TooMany where over 2^32 - 2 rows lie in the range. The
/// batch is unchanged at each error.
pub fn create<R: Threads + Sync, K: Keeper>(
    rt: &R,
    alloc: Global,
    degree: u32,
    keeper: &mut K,
    batch: &mut Batch,
    index: &Name,
    target: &Target,
    prefs: &Prefs,
    range: KeyRange,
) -> Result<(), ContextFault>
    requires ready { (K.view keeper.old).ready }
    requires set { can_be_set prefs.now.lexer ≡ true }
    ensures changes { ToldTables K.view keeper.old (λ ts. Adds batch.old batch.new result (created_changes_of ts index.now target.now prefs.now range)) }
    ensures room { ToldTables K.view keeper.old (λ ts. OnOk result (given_after_create ts target.now range ≤ mark_limit)) }
    ensures many { ToldTables K.view keeper.old (λ ts. IsTooManyOnly result (given_after_create ts target.now range)) }
    ensures err { OnErr result (batch.new ≡ batch.old) }
    ensures shaped { AreShaped HasContextValue batch.old → AreShaped HasContextValue batch.new }
    ensures reads { ReadsKeeper (K.view keeper.old) (K.view keeper.new) (context_fault_of result) }
{
    let found = match changes_of_create(rt, alloc, degree, keeper, index, target, prefs, range) {
        Ok(found) => found,
        Err(fault) => return Err(fault_of_reads(fault)),
    };
    let Some(changes) = found else {
        return Err(ContextFault::TooMany);
    };
    batch.append(changes)?;
    Ok(())
}
