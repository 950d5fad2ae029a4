//! Synchronising indexes.
#![tactic(auto, using(ct_keep::specs::laws::Composing::reads_on, ct_keep::specs::laws::Composing::reads_short))]

ghost use Rattle.std.specs.Prelude.{◌≡◌, ◌+◌, ◌≤◌, ◌<◌, ◌^◌, [], IfOk, IfSome, OnOk, OnErr, Some, None, Err, length, map, true};
ghost use Rattle.ct_keep.specs.KeeperViews.{Finds, OnlyReads, ReadsKeeper, Told};
ghost use Rattle.ct_entry.specs.declared.kinds.Kind.TheVariants as kind;
ghost use Rattle.ct_entry.specs.Keys.{at, key};
ghost use Rattle.ct_entry.specs.Shapes.{AreShaped};
ghost use Rattle.tx_settings.specs.Attributes.{can_be_set};
ghost use Rattle.ix_docmap.specs.Changes.{map_settle_changes};
ghost use Rattle.ix_context.specs.Indexes.{mark_limit};
ghost use Rattle.ix_context.specs.Changes.{Adds, AddsSettledRows, AreSettleChanges, settle_each_changes};
ghost use Rattle.ix_context.specs.Faults.{context_fault_of};
ghost use Rattle.ix_context.specs.Places.{IsPlace, place_bytes};
ghost use Rattle.ix_context.specs.Sees.{ToldTables, SeesTables, ToldContext, ToldPlace, SeesPlace, AreSyncChanges, IsTooManyOnly, given_after_sync, synced_changes_of};
ghost use Rattle.ix_context.specs.Shapes.{HasContextValue, KeepsShape};

use crate::entries::{put_index, read_index};
use crate::faults::{ContextFault, fault_of_reads};
use crate::marking::{mark_next, number_after};
use crate::places::{Place, Tidiness};
use crate::texts::gather_texts;
use ct_base::{Memory, Name, RowKey};
use ct_keep::{Batch, KeepFault, Keeper};
use ix_docmap::{pending, unqueue};
use std::alloc::Global;
use std::thread::Threads;
use tb_table::Target;
use tx_settings::Prefs;

/// Adds the changes by which a row that waits becomes this document of an index: it leaves the queue, and gets its number.
fn settle_row(
    alloc: Global,
    changes: &mut Batch,
    index: &Name,
    document: u32,
    row: RowKey,
) -> Result<(), Memory>
    ensures changes { Adds changes.old changes.new result (map_settle_changes index.now (document, row.0)) }
    ensures shaped { KeepsShape changes.old changes.new result }
{
    unqueue(alloc, changes, index, row)?;
    mark_next(alloc, changes, index, document, row)
}

/// Adds the changes by which rows that wait become documents of an index, the first of them this one.
fn settle_each(
    alloc: Global,
    changes: &mut Batch,
    index: &Name,
    first: u32,
    rows: &[RowKey],
) -> Result<(), Memory>
    requires { first + length rows.now < 2 ^ 32 }
    ensures changes { Adds changes.old changes.new result (settle_each_changes index.now first (map (λ r. r.0) rows.now)) }
    ensures shaped { KeepsShape changes.old changes.new result }
{
    let mut document = first;
    for row in rows {
        settle_row(alloc, changes, index, document, *row)?;
        document += 1;
    }
    Ok(())
}

/// Adds the changes by which rows that wait become documents of an index on this target that reads texts by these preferences, with
/// their postings, the first of them this one. All texts are read before the first change is added.
fn settle_rows<R: Threads + Sync, K: Keeper>(
    rt: &R,
    alloc: Global,
    degree: u32,
    keeper: &mut K,
    changes: &mut Batch,
    index: &Name,
    target: &Target,
    prefs: &Prefs,
    first: u32,
    rows: &[RowKey],
) -> Result<(), KeepFault>
    requires ready { (K.view keeper.old).ready }
    requires some { 1 ≤ first }
    requires room { first + length rows.now < 2 ^ 32 }
    requires set { can_be_set prefs.now.lexer ≡ true }
    ensures changes { ToldTables K.view keeper.old (λ ts. AddsSettledRows ts index.now target.now prefs.now first rows.now changes.old changes.new result) }
    ensures shaped { KeepsShape changes.old changes.new result }
    ensures reads { OnlyReads K.view keeper.old keeper.new result }
{
    // Read so that the proof knows that it is a name.
    let _named = index.as_str();
    let gathered = gather_texts(rt, alloc, degree, keeper, target, prefs, first, rows)?;
    settle_each(alloc, changes, index, first, rows)?;
    gathered.into_changes(alloc, changes, index)?;
    Ok(())
}

/// The changes by which rows that wait become documents of an index on this target that gives this document next, and whose entry
/// ends in this place. None where there are more rows than numbers.
fn settled_changes<R: Threads + Sync, K: Keeper>(
    rt: &R,
    alloc: Global,
    degree: u32,
    keeper: &mut K,
    index: &Name,
    target: &Target,
    prefs: &Prefs,
    place: &Place,
    first: u32,
    rows: &[RowKey],
) -> Result<Option<Batch>, KeepFault>
    requires ready { (K.view keeper.old).ready }
    requires some { 1 ≤ first }
    requires set { can_be_set prefs.now.lexer ≡ true }
    requires place { IsPlace (place_bytes place.now) }
    ensures changes { SeesTables K.view keeper.old result (λ ts. AreSettleChanges ts index.now target.now prefs.now (place_bytes place.now) first rows.now) }
    ensures shaped { IfOk result (λ found. IfSome found (AreShaped HasContextValue)) }
    ensures reads { OnlyReads K.view keeper.old keeper.new result }
{
    let mut changes = Batch::new(alloc);
    if rows.is_empty() {
        return Ok(Some(changes));
    }
    let Some(next) = number_after(first, rows.len()) else {
        return Ok(None);
    };
    settle_rows(
        rt,
        alloc,
        degree,
        keeper,
        &mut changes,
        index,
        target,
        prefs,
        first,
        rows,
    )?;
    put_index(
        alloc,
        &mut changes,
        index,
        target,
        prefs,
        next,
        Tidiness::Untidy,
        place,
    )?;
    Ok(Some(changes))
}

/// The changes of a synchronisation: an empty batch where there is no such index, None where more rows wait than the index has
/// numbers left.
fn changes_of_sync<R: Threads + Sync, K: Keeper>(
    rt: &R,
    alloc: Global,
    degree: u32,
    keeper: &mut K,
    index: &Name,
) -> Result<Option<Batch>, KeepFault>
    requires { (K.view keeper.old).ready }
    ensures changes { SeesPlace K.view keeper.old index.now result (AreSyncChanges index.now) }
    ensures no_entry { Finds K.view keeper.old result (λ m found. at m (key kind.Indexes index.now []) ≡ None → found ≡ Some []) }
    ensures shaped { IfOk result (λ found. IfSome found (AreShaped HasContextValue)) }
    ensures reads { OnlyReads K.view keeper.old keeper.new result }
{
    let Some(entry) = read_index(alloc, keeper, index)? else {
        return Ok(Some(Batch::new(alloc)));
    };
    let rows = pending(alloc, keeper, index)?;
    let first = entry.next_document.max(1);
    settled_changes(
        rt,
        alloc,
        degree,
        keeper,
        index,
        &entry.target,
        &entry.prefs,
        &entry.place,
        first,
        &rows,
    )
}

/// Adds the changes by which each row that waits becomes a document of the index: in order of their keys they take the next
/// document numbers, and the words of their texts in all streams and their sections get postings, by the preferences of the
/// index. It is untidy then, and an optimisation goes on where it would. Nothing where no row waits, and where there is no such
/// index. Up to `degree` threads read the texts.
///
/// Its cost is the length of these texts, times a logarithm. It holds the rows of postings of all, and one text; of several threads a
/// portion of texts of a mebibyte, and its postings. TooMany where the index would have given over 2^32 - 2 documents. The batch is
/// unchanged at each error.
pub fn sync<R: Threads + Sync, K: Keeper>(
    rt: &R,
    alloc: Global,
    degree: u32,
    keeper: &mut K,
    batch: &mut Batch,
    index: &Name,
) -> Result<(), ContextFault>
    requires { (K.view keeper.old).ready }
    ensures changes { ToldPlace K.view keeper.old index.now (λ t x place. Adds batch.old batch.new result (synced_changes_of index.now t x place)) }
    ensures room { ToldContext K.view keeper.old index.now (λ t x. OnOk result (given_after_sync x ≤ mark_limit)) }
    ensures many { ToldContext K.view keeper.old index.now (λ t x. IsTooManyOnly result (given_after_sync x)) }
    ensures no_entry { Told K.view keeper.old (λ m. at m (key kind.Indexes index.now []) ≡ None → OnOk result (batch.new ≡ batch.old)) }
    ensures err { OnErr result (batch.new ≡ batch.old) }
    ensures shaped { AreShaped HasContextValue batch.old → AreShaped HasContextValue batch.new }
    ensures reads { ReadsKeeper (K.view keeper.old) (K.view keeper.new) (context_fault_of result) }
{
    let found = match changes_of_sync(rt, alloc, degree, keeper, index) {
        Ok(found) => found,
        Err(fault) => return Err(fault_of_reads(fault)),
    };
    let Some(changes) = found else {
        return Err(ContextFault::TooMany);
    };
    batch.append(changes)?;
    Ok(())
}
