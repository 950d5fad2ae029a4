//! The scores of the rows that a query finds, as its documents are looked up.
#![tactic(auto, using(ct_keep::specs::laws::Composing::reads_on, ct_keep::specs::laws::Composing::reads_short))]

ghost use Rattle.std.specs.Prelude.{◌≡◌, OnOk};
ghost use Rattle.ct_keep.specs.KeeperViews.{Finds, OnlyReads, Told};
ghost use Rattle.ct_keep.specs.Looks.{no_looks, LooksAtMost};
ghost use Rattle.ct_entry.specs.Keys.{at};
ghost use Rattle.ix_docmap.specs.Readings.{row_at_document};
ghost use Rattle.ix_cursor.specs.Cursors.{remaining};
ghost use Rattle.ix_search.specs.Walking.{with_score, AreScoresOfRows};

use crate::scores::Scores;
use ct_base::{DocId, Name};
use ct_keep::{KeepFault, Keeper};
use ix_cursor::Cursor;
use ix_docmap::row_of;
use std::alloc::Global;

/// Gives the row of a document a score, if the document is mapped.
fn score_row<K: Keeper>(
    alloc: Global,
    keeper: &mut K,
    index: &Name,
    scores: &mut Scores,
    document: DocId,
    score: u32,
) -> Result<(), KeepFault>
    requires { (K.view keeper.old).ready }
    ensures scores { Told K.view keeper.old (λ m. OnOk result (scores.new ≡ with_score (row_at_document (at m) index.now document.0) score scores.old)) }
    ensures reads { OnlyReads K.view keeper.old keeper.new result }
    ensures at_most { LooksAtMost K.view keeper.old keeper.new no_looks }
{
    let Some(row) = row_of(alloc, keeper, index, document)? else {
        return Ok(());
    };
    scores.put(row, score)?;
    Ok(())
}

/// The scores of the rows of all documents that a cursor gives, from its first on. A document that isn't mapped is left out.
///
/// It costs what the cursor costs, and for each document that it gives one look-up and the logarithm of the number of scores.
pub(crate) fn score_rows<K: Keeper>(
    alloc: Global,
    keeper: &mut K,
    index: &Name,
    cursor: &mut Cursor,
) -> Result<Scores, KeepFault>
    requires { (K.view keeper.old).ready }
    ensures scores { Finds K.view keeper.old result (λ m scores. AreScoresOfRows (row_at_document (at m) index.now) (remaining cursor.old) scores) }
    ensures reads { OnlyReads K.view keeper.old keeper.new result }
    ensures at_most { LooksAtMost K.view keeper.old keeper.new no_looks }
{
    let mut scores = Scores::new(alloc);
    let mut from = 0;
    'documents: loop {
        let Some(document) = cursor.advance(alloc, DocId(from))? else {
            return Ok(scores);
        };
        score_row(alloc, keeper, index, &mut scores, document, cursor.score())?;
        if document.0 == u32::MAX {
            return Ok(scores);
        }
        from = document.0 + 1;
    }
}
