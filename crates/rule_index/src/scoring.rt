//! Whether a rule holds of a document, by its score.

ghost use Rattle.std.specs.Prelude.{◌≡◌, true, IfOk, IfSome};
ghost use Rattle.std.specs.Option.{option_map};
ghost use Rattle.q_tree.specs.Documents.{postings_of_entries};
ghost use Rattle.q_tree.specs.ReducedQueries.{reduced_of};
ghost use Rattle.q_tree.specs.Soundness.{is_sound};
ghost use Rattle.ix_cursor.specs.Alone.{AreDocumentEntries, doc_entries};
ghost use Rattle.rule_index.specs.Matching.{query_holds};

use ct_base::Memory;
use ix_cursor::score_alone;
use q_tree::Flat;
use std::alloc::Global;
use tx_document::Entry;

/// Whether the query of a rule has a score above 0 on the document that has just these entries. Its cost is that of scoring the document.
pub(crate) fn has_score(
    alloc: Global,
    query: &Option<Flat>,
    entries: &[Entry],
) -> Result<bool, Memory>
    requires sound { IfSome query.now (λ q. is_sound (reduced_of q) ≡ true) }
    requires entries { AreDocumentEntries entries.now }
    ensures { IfOk result (λ holds. holds ≡ query_holds (postings_of_entries (doc_entries entries.now)) (option_map reduced_of query.now)) }
{
    match query {
        Some(query) => Ok(score_alone(alloc, query, entries)? > 0),
        None => Ok(false),
    }
}
