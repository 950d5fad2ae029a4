//! What is read of the map and the queue.
#![tactic(auto, using(ct_keep::specs::laws::Composing::reads_on, ct_keep::specs::laws::Composing::reads_short))]

ghost use Rattle.std.specs.Prelude.{◌≡◌, IfOk, Some, map};
ghost use Rattle.std.specs.Option.{option_map};
ghost use Rattle.ct_keep.specs.KeeperViews.{Finds, OnlyReads, Told};
ghost use Rattle.ct_keep.specs.Looks.{no_looks, scan_looks, LooksAtMost};
ghost use Rattle.ct_entry.specs.declared.kinds.Kind.TheVariants as kind;
ghost use Rattle.ct_entry.specs.Keys.{at, prefix_of};
ghost use Rattle.ct_entry.specs.Listings.{rows_under};
ghost use Rattle.ix_docmap.specs.Readings.{document_of, document_at, row_at_document, waits_at};

use ct_base::{DocId, Name, RowKey};
use ct_bytes::{read_u32, row_key_bytes};
use ct_entry::{Kind, fetch_entry, has_entry, row_in, row_keys};
use ct_keep::{KeepFault, Keeper};
use std::alloc::Global;

/// The document that a value spells; None where it hasn't 4 bytes.
fn document_in(value: &[u8]) -> Option<DocId>
    ensures { option_map (λ d. d.0) result ≡ document_of value.now }
{
    let number = read_u32(value, 0)?;
    if value.len() == 4 {
        Some(DocId(number))
    } else {
        None
    }
}

/// The document that a row of an index is. None where it is none: the row waits, or the index has no such row. An entry that
/// isn't 4 bytes long counts as none.
///
/// It takes one look-up, which reads no text and no posting, and never answers Full.
pub fn number_of<K: Keeper>(
    alloc: Global,
    keeper: &mut K,
    index: &Name,
    key: RowKey,
) -> Result<Option<DocId>, KeepFault>
    requires { (K.view keeper.old).ready }
    ensures document { Finds K.view keeper.old result (λ m document. option_map (λ d. d.0) document ≡ document_at (at m) index.now key.0) }
    ensures reads { OnlyReads K.view keeper.old keeper.new result }
    ensures at_most { LooksAtMost K.view keeper.old keeper.new no_looks }
{
    let part = row_key_bytes(key);
    let Some(value) = fetch_entry(alloc, keeper, Kind::RowDocuments, index, &part)? else {
        return Ok(None);
    };
    Ok(document_in(&value))
}

/// The row that a document of an index is. None where the index has no such document, or has it no more. An entry that isn't
/// 8 bytes long counts as none.
///
/// It takes one look-up, which reads no text and no posting, and never answers Full.
pub fn row_of<K: Keeper>(
    alloc: Global,
    keeper: &mut K,
    index: &Name,
    doc: DocId,
) -> Result<Option<RowKey>, KeepFault>
    requires { (K.view keeper.old).ready }
    ensures row { Finds K.view keeper.old result (λ m row. option_map (λ r. r.0) row ≡ row_at_document (at m) index.now doc.0) }
    ensures reads { OnlyReads K.view keeper.old keeper.new result }
    ensures at_most { LooksAtMost K.view keeper.old keeper.new no_looks }
{
    let part = doc.0.to_be_bytes();
    let Some(value) = fetch_entry(alloc, keeper, Kind::DocumentRows, index, &part)? else {
        return Ok(None);
    };
    Ok(row_in(&value))
}

/// Whether a row waits for the next synchronisation of an index.
///
/// It takes one look-up, which reads no text and no posting, and never answers Full.
pub fn is_pending<K: Keeper>(
    alloc: Global,
    keeper: &mut K,
    index: &Name,
    key: RowKey,
) -> Result<bool, KeepFault>
    requires { (K.view keeper.old).ready }
    ensures waits { Finds K.view keeper.old result (λ m waits. waits ≡ waits_at (at m) index.now key.0) }
    ensures reads { OnlyReads K.view keeper.old keeper.new result }
    ensures at_most { LooksAtMost K.view keeper.old keeper.new no_looks }
{
    let part = row_key_bytes(key);
    has_entry(alloc, keeper, Kind::Pending, index, &part)
}

/// The rows that wait for the next synchronisation of an index, in order of their keys.
///
/// It costs what it finds, and never answers Full.
pub fn pending<K: Keeper>(
    alloc: Global,
    keeper: &mut K,
    index: &Name,
) -> Result<Vec<RowKey>, KeepFault>
    requires { (K.view keeper.old).ready }
    ensures rows { Finds K.view keeper.old result (λ m rows. map (λ r. r.0) rows.items ≡ rows_under kind.Pending index.now m) }
    ensures reads { OnlyReads K.view keeper.old keeper.new result }
    ensures at_most { Told K.view keeper.old (λ m. LooksAtMost K.view keeper.old keeper.new (scan_looks (prefix_of kind.Pending index.now) m)) }
{
    row_keys(alloc, keeper, Kind::Pending, index)
}
