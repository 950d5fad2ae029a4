//! Changes of the map and the queue.

ghost use Rattle.std.specs.Prelude.{◌≡◌, ◌++◌, OnOk, OnErr};
ghost use Rattle.ct_entry.specs.Changes.{spell};
ghost use Rattle.ix_docmap.specs.Changes.{mark_changes, unmark_changes, queue_changes, unqueue_changes};

use ct_base::{DocId, Memory, Name, RowKey};
use ct_bytes::row_key_bytes;
use ct_entry::{Kind, put_entry, remove_entry};
use ct_keep::Batch;
use std::alloc::Global;

/// Adds the changes by which a row of an index is this document: from the document to the row, and back.
///
/// No entry is read. It fails only for want of memory, and then the batch is unchanged.
pub fn mark(
    alloc: Global,
    batch: &mut Batch,
    index: &Name,
    key: RowKey,
    doc: DocId,
) -> Result<(), Memory>
    ensures ok { OnOk result (batch.new ≡ batch.old ++ spell (mark_changes index.now doc.0 key.0)) }
    ensures err { OnErr result (batch.new ≡ batch.old) }
{
    let row = row_key_bytes(key);
    let document = doc.0.to_be_bytes();
    let row_value = Vec::from_slice(alloc, &row)?;
    let document_value = Vec::from_slice(alloc, &document)?;
    let mut changes = Batch::new(alloc);
    put_entry(
        alloc,
        &mut changes,
        Kind::DocumentRows,
        index,
        &document,
        row_value,
    )?;
    put_entry(
        alloc,
        &mut changes,
        Kind::RowDocuments,
        index,
        &row,
        document_value,
    )?;
    batch.append(changes)
}

/// Adds the changes by which a row of an index is this document no more: neither from the document to the row, nor back.
///
/// No entry is read. It fails only for want of memory, and then the batch is unchanged.
pub fn unmark(
    alloc: Global,
    batch: &mut Batch,
    index: &Name,
    key: RowKey,
    doc: DocId,
) -> Result<(), Memory>
    ensures ok { OnOk result (batch.new ≡ batch.old ++ spell (unmark_changes index.now doc.0 key.0)) }
    ensures err { OnErr result (batch.new ≡ batch.old) }
{
    let row = row_key_bytes(key);
    let document = doc.0.to_be_bytes();
    let mut changes = Batch::new(alloc);
    remove_entry(alloc, &mut changes, Kind::DocumentRows, index, &document)?;
    remove_entry(alloc, &mut changes, Kind::RowDocuments, index, &row)?;
    batch.append(changes)
}

/// Adds the change that a row waits for the next synchronisation of an index.
///
/// No entry is read. It fails only for want of memory, and then the batch is unchanged.
pub fn queue(alloc: Global, batch: &mut Batch, index: &Name, key: RowKey) -> Result<(), Memory>
    ensures ok { OnOk result (batch.new ≡ batch.old ++ spell (queue_changes index.now key.0)) }
    ensures err { OnErr result (batch.new ≡ batch.old) }
{
    let row = row_key_bytes(key);
    put_entry(alloc, batch, Kind::Pending, index, &row, Vec::new(alloc))
}

/// Adds the change that a row waits no more.
///
/// No entry is read. It fails only for want of memory, and then the batch is unchanged.
pub fn unqueue(alloc: Global, batch: &mut Batch, index: &Name, key: RowKey) -> Result<(), Memory>
    ensures ok { OnOk result (batch.new ≡ batch.old ++ spell (unqueue_changes index.now key.0)) }
    ensures err { OnErr result (batch.new ≡ batch.old) }
{
    let row = row_key_bytes(key);
    remove_entry(alloc, batch, Kind::Pending, index, &row)
}
