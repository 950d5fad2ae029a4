//! The rows of the documents that a query may score.
#![tactic(auto, using(ct_keep::specs::laws::Composing::reads_on, ct_keep::specs::laws::Composing::reads_short))]

ghost use Rattle.std.specs.Prelude.{◌≡◌, OnOk};
ghost use Rattle.ct_keep.specs.KeeperViews.{Finds, OnlyReads, Told};
ghost use Rattle.ct_keep.specs.Looks.{no_looks, LooksAtMost};
ghost use Rattle.ct_entry.specs.Keys.{at};
ghost use Rattle.ix_docmap.specs.Readings.{row_at_document};
ghost use Rattle.ix_cursor.specs.Candidates.{ahead};
ghost use Rattle.ix_search.specs.Gathering.{with_row_of, AreRowsOfDocuments};

use crate::document_rows::DocumentRows;
use ct_base::{DocId, Name};
use ct_keep::{KeepFault, Keeper};
use ix_cursor::Candidates;
use ix_docmap::row_of;
use std::alloc::Global;

/// Keeps the row of a document, if it has one.
fn map_document<K: Keeper>(
    alloc: Global,
    keeper: &mut K,
    index: &Name,
    rows: &mut DocumentRows,
    document: DocId,
) -> Result<(), KeepFault>
    requires { (K.view keeper.old).ready }
    ensures rows { Told K.view keeper.old (λ m. OnOk result (rows.new ≡ with_row_of document.0 (row_at_document (at m) index.now document.0) rows.old)) }
    ensures reads { OnlyReads K.view keeper.old keeper.new result }
    ensures at_most { LooksAtMost K.view keeper.old keeper.new no_looks }
{
    if let Some(row) = row_of(alloc, keeper, index, document)? {
        rows.put(document, row)?;
    }
    Ok(())
}

/// The rows of all candidates that are left. It costs what going through them costs, and one look-up for each.
pub(crate) fn map_documents<K: Keeper>(
    alloc: Global,
    keeper: &mut K,
    index: &Name,
    candidates: &mut Candidates,
) -> Result<DocumentRows, KeepFault>
    requires { (K.view keeper.old).ready }
    ensures rows { Finds K.view keeper.old result (λ m rows. AreRowsOfDocuments (row_at_document (at m) index.now) (ahead candidates.old) rows) }
    ensures reads { OnlyReads K.view keeper.old keeper.new result }
    ensures at_most { LooksAtMost K.view keeper.old keeper.new no_looks }
{
    let mut rows = DocumentRows::new(alloc);
    'documents: loop {
        let Some(document) = candidates.next(alloc)? else {
            return Ok(rows);
        };
        map_document(alloc, keeper, index, &mut rows, document)?;
    }
}
