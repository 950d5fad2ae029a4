//! Noting changes of rows in indexes.
#![tactic(auto, using(ct_keep::specs::laws::Composing::reads_on, ct_keep::specs::laws::Composing::reads_short))]

ghost use Rattle.std.specs.Prelude.{◌≡◌, [], OnOk, OnErr, Some, None, Err};
ghost use Rattle.std.specs.Option.{option_map};
ghost use Rattle.ct_keep.specs.KeeperViews.{OnlyReads, ReadsKeeper, Told};
ghost use Rattle.ct_keep.specs.Looks.{no_looks, LooksAtMost};
ghost use Rattle.ct_entry.specs.declared.kinds.Kind.TheVariants as kind;
ghost use Rattle.ct_entry.specs.Keys.{at, key};
ghost use Rattle.ix_docmap.specs.Changes.{gone_changes, changed_changes, queue_changes};
ghost use Rattle.ix_docmap.specs.Readings.{document_at};
ghost use Rattle.ix_context.specs.Changes.{Adds};
ghost use Rattle.ix_context.specs.Faults.{context_fault_of};
ghost use Rattle.ix_context.specs.Sees.{UntidiesIndex};
ghost use Rattle.ix_context.specs.Shapes.{KeepsShape};
ghost use Rattle.ix_context.specs.Untidying.{AddsAsLong};

use crate::entries::{put_index, read_index};
use crate::faults::{ContextFault, fault_of_reads};
use crate::places::Tidiness;
use ct_base::{DocId, Memory, Name, RowKey};
use ct_keep::{Batch, KeepFault, Keeper};
use ix_docmap::{number_of, queue, unmark, unqueue};
use std::alloc::Global;

/// Adds the change that a row waits for the next synchronisation of an index. It fails only for want of memory.
pub fn note_insert(
    alloc: Global,
    batch: &mut Batch,
    index: &Name,
    key: RowKey,
) -> Result<(), ContextFault>
    ensures ok { Adds batch.old batch.new result (queue_changes index.now key.0) }
    ensures err { OnErr result (batch.new ≡ batch.old) }
    ensures no_disk { result ≡ Err ContextFault.Disk → ⊥ }
    ensures never_too_many { result ≡ Err ContextFault.TooMany → ⊥ }
{
    queue(alloc, batch, index, key)?;
    Ok(())
}

/// Adds the changes by which a row goes that was this document, or that waited.
fn drop_row(
    alloc: Global,
    batch: &mut Batch,
    index: &Name,
    key: RowKey,
    document: Option<DocId>,
) -> Result<(), Memory>
    ensures ok { Adds batch.old batch.new result (gone_changes index.now key.0 (option_map (λ d. d.0) document)) }
    ensures err { OnErr result (batch.new ≡ batch.old) }
{
    match document {
        Some(document) => unmark(alloc, batch, index, key, document),
        None => unqueue(alloc, batch, index, key),
    }
}

/// Adds the changes by which a row waits that was this document. Nothing where it was none: then it waits already.
fn requeue_row(
    alloc: Global,
    batch: &mut Batch,
    index: &Name,
    key: RowKey,
    document: Option<DocId>,
) -> Result<(), Memory>
    ensures ok { Adds batch.old batch.new result (changed_changes index.now key.0 (option_map (λ d. d.0) document)) }
    ensures err { OnErr result (batch.new ≡ batch.old) }
{
    let Some(document) = document else {
        return Ok(());
    };
    let mut changes = Batch::new(alloc);
    unmark(alloc, &mut changes, index, key, document)?;
    queue(alloc, &mut changes, index, key)?;
    batch.append(changes)
}

/// Adds the changes by which a row goes from an index: it is no document any more if it was one, and else it waits no more.
/// Its postings stay, and are found no more.
///
/// It takes one look-up, of the row's document; no text and no posting is read. Memory and Disk are the only errors, and the
/// batch is unchanged at both.
pub fn note_delete<K: Keeper>(
    alloc: Global,
    keeper: &mut K,
    batch: &mut Batch,
    index: &Name,
    key: RowKey,
) -> Result<(), ContextFault>
    requires { (K.view keeper.old).ready }
    ensures changes { Told K.view keeper.old (λ m. Adds batch.old batch.new result (gone_changes index.now key.0 (document_at (at m) index.now key.0))) }
    ensures err { OnErr result (batch.new ≡ batch.old) }
    ensures never_too_many { result ≡ Err ContextFault.TooMany → ⊥ }
    ensures shaped { KeepsShape batch.old batch.new result }
    ensures reads { ReadsKeeper (K.view keeper.old) (K.view keeper.new) (context_fault_of result) }
    ensures at_most { LooksAtMost K.view keeper.old keeper.new no_looks }
{
    let document = match number_of(alloc, keeper, index, key) {
        Ok(document) => document,
        Err(fault) => return Err(fault_of_reads(fault)),
    };
    drop_row(alloc, batch, index, key, document)?;
    Ok(())
}

/// Adds the changes by which a row whose text is another now waits for the next synchronisation of an index: it is no document
/// any more if it was one. Nothing where it waits already. Its postings stay, and are found no more.
///
/// It takes one look-up, of the row's document; no text and no posting is read. Memory and Disk are the only errors, and the
/// batch is unchanged at both.
pub fn note_update<K: Keeper>(
    alloc: Global,
    keeper: &mut K,
    batch: &mut Batch,
    index: &Name,
    key: RowKey,
) -> Result<(), ContextFault>
    requires { (K.view keeper.old).ready }
    ensures changes { Told K.view keeper.old (λ m. Adds batch.old batch.new result (changed_changes index.now key.0 (document_at (at m) index.now key.0))) }
    ensures err { OnErr result (batch.new ≡ batch.old) }
    ensures never_too_many { result ≡ Err ContextFault.TooMany → ⊥ }
    ensures shaped { KeepsShape batch.old batch.new result }
    ensures reads { ReadsKeeper (K.view keeper.old) (K.view keeper.new) (context_fault_of result) }
    ensures at_most { LooksAtMost K.view keeper.old keeper.new no_looks }
{
    // Read so that the proof knows that it is a name.
    let _named = index.as_str();
    let document = match number_of(alloc, keeper, index, key) {
        Ok(document) => document,
        Err(fault) => return Err(fault_of_reads(fault)),
    };
    requeue_row(alloc, batch, index, key, document)?;
    Ok(())
}

/// Adds the change by which an index is tidy no more: it comes before those of the first row that goes or changes. Its entry ends in the
/// same place, and has as many bytes. Nothing where the index isn't tidy, and where there is no such index.
///
/// It takes one look-up, of the index's entry. Memory and Disk are the only errors, and the batch is unchanged at both.
pub fn untidy<K: Keeper>(
    alloc: Global,
    keeper: &mut K,
    batch: &mut Batch,
    index: &Name,
) -> Result<(), KeepFault>
    requires { (K.view keeper.old).ready }
    ensures changes { UntidiesIndex K.view keeper.old index.now result batch.old batch.new }
    ensures no_entry { Told K.view keeper.old (λ m. at m (key kind.Indexes index.now []) ≡ None → OnOk result (batch.new ≡ batch.old)) }
    ensures as_long { Told K.view keeper.old (λ m. OnOk result (AddsAsLong (at m) batch.old batch.new)) }
    ensures err { OnErr result (batch.new ≡ batch.old) }
    ensures shaped { KeepsShape batch.old batch.new result }
    ensures reads { OnlyReads K.view keeper.old keeper.new result }
    ensures at_most { LooksAtMost K.view keeper.old keeper.new no_looks }
{
    let Some(entry) = read_index(alloc, keeper, index)? else {
        return Ok(());
    };
    if !entry.tidiness.is_tidy() {
        return Ok(());
    }
    put_index(
        alloc,
        batch,
        index,
        &entry.target,
        &entry.prefs,
        entry.next_document,
        Tidiness::Untidy,
        &entry.place,
    )?;
    Ok(())
}
