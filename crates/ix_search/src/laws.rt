//! What holds of every text, and of what queries find.

ghost use Rattle.ix_search.specs.FindingPromises.{FoundIsExact, FoundRises, UnsettledRowsAreNotFound, LostRowsAreNotFound, ChangedRowsAreNotFound};
ghost use Rattle.ix_search.specs.Looking.{QueriesLookFew};
ghost use Rattle.ix_search.specs.Promises.{EntriesArePostings, EntriesCanBeScored, PartsScoreAlike, WordsOfTextsRise};

/// The words of a text have rising positions, and its entries in an index are its postings: a key stands at a position of a
/// stream by the entries exactly where it does by the words, and a section has the same pairs by both. A query can score the text
/// alone by these entries.
#[tactic(auto, using(crate::specs::laws::Words::words_rise, crate::specs::laws::Entries::entries_are_postings, crate::specs::laws::EntriesAlone::entries_can_be_scored))]
pub fn text_laws()
    ensures rise { WordsOfTextsRise }
    ensures postings { EntriesArePostings }
    ensures scored { EntriesCanBeScored }
{}

/// A query has one score over two documents whose postings agree in each slot of the query, in the stream where it is looked for,
/// and in each of its sections.
#[tactic(auto, using(crate::specs::laws::Parts::parts_score_alike))]
pub fn score_laws()
    ensures { PartsScoreAlike }
{}

/// What a query finds by scanning: exactly the rows that are settled and of which the index sees a text on which the query has
/// a score above the number, each with that score, in the order of the row keys and none twice.
pub fn found_is_exact()
    ensures exact { FoundIsExact }
    ensures rising { FoundRises }
{}

/// No query finds a row that isn't settled: one that waits, one that went, or one that was set, until the next
/// synchronisation.
pub fn unsettled_not_found()
    ensures unsettled { UnsettledRowsAreNotFound }
    ensures gone { LostRowsAreNotFound }
    ensures changed { ChangedRowsAreNotFound }
{}

/// What a query looks up is within what it may: of rows one more than there are for each key and section, 256 more than there are for
/// each pattern, and no text.
pub fn looking_law()
    ensures { QueriesLookFew }
{
    ix_tokens::looking_law();
}
