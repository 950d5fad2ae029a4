//! What holds of posting lists. Each function here only states a law, which its contract proves.

ghost use Rattle.ix_posting.specs.Rows.{posting_bytes, span_row_bytes};
ghost use Rattle.ix_rows.specs.Promises.{DeadDocumentsStand, GrowsByTerm, HasOneSplit, NewDocumentsStand};
ghost use Rattle.ix_rows.specs.PlacedRows.{document_number};

/// New documents behind those that an index has given leave what stands under each term, and waste nothing.
pub fn new_documents_stand()
    ensures { NewDocumentsStand }
{}

/// Where a row goes, or is to be read anew, its document stays in the posting lists, and what it costs there is wasted.
pub fn dead_documents_stand()
    ensures { DeadDocumentsStand }
{}

/// A posting list of words, and one of sections, has one split into rows: each row takes documents as long as it has room, and at least one.
pub fn lists_have_one_split()
    ensures words { HasOneSplit document_number posting_bytes }
    ensures sections { HasOneSplit document_number span_row_bytes }
{}

/// The rows that grow of postings are told by what comes to each term, in its order.
pub fn rows_grow_by_term()
    ensures { GrowsByTerm }
{}
