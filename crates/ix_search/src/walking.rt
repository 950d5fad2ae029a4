//! The scores of the rows of the documents that a query scores.

ghost use Rattle.std.specs.Prelude.{◌≡◌, IfOk, OnOk};
ghost use Rattle.std.specs.FinMap.{get};
ghost use Rattle.ix_cursor.specs.Cursors.{remaining};
ghost use Rattle.ix_search.specs.Walking.{with_score, AreOneToOne, AreScores};

use crate::document_rows::DocumentRows;
use crate::scores::Scores;
use ct_base::{DocId, Memory};
use ix_cursor::Cursor;
use std::alloc::Global;

/// Gives the row of a document a score, if it has one.
fn score_document(
    rows: &DocumentRows,
    scores: &mut Scores,
    document: DocId,
    score: u32,
) -> Result<(), Memory>
    ensures { OnOk result (scores.new ≡ with_score (get rows.now document.0) score scores.old) }
{
    if let Some(row) = rows.row_of(document) {
        scores.put(row, score)?;
    }
    Ok(())
}

/// The scores of the rows of all documents that a cursor gives, from its first on. A document without a row is left out.
///
/// It costs what the cursor costs, and for each document that it gives the logarithms of the number of rows and of scores.
pub(crate) fn walk(
    alloc: Global,
    rows: &DocumentRows,
    cursor: &mut Cursor,
) -> Result<Scores, Memory>
    ensures { IfOk result (λ scores. AreOneToOne (get rows.now) → AreScores (get rows.now) (remaining cursor.old) scores) }
{
    let mut scores = Scores::new(alloc);
    let mut to = 0;
    'documents: loop {
        let Some(document) = cursor.advance(alloc, DocId(to))? else {
            return Ok(scores);
        };
        score_document(rows, &mut scores, document, cursor.score())?;
        if document.0 == u32::MAX {
            return Ok(scores);
        }
        to = document.0 + 1;
    }
}
