//! What holds of what RESULT_SET looks up.

ghost use Rattle.db_hits.specs.Looking.{ResultsLookFew};

/// What RESULT_SET looks up at most is within what it may: of each hit the text of each column of texts that the descriptor names, and as
/// many rows of postings and sections as its query may look up.
pub fn looking_law()
    ensures { ResultsLookFew }
{
    ix_search::looking_law();
}
