//! What a search finds in its index.
#![tactic(auto, using(ct_keep::specs::laws::Composing::reads_on, ct_keep::specs::laws::Composing::reads_short))]

ghost use Rattle.std.specs.Prelude.{◌≡◌, false, nat_lt, filter};
ghost use Rattle.ct_keep.specs.KeeperViews.{OnlyReads, Told};
ghost use Rattle.ct_keep.specs.Looks.{LooksAtMost};
ghost use Rattle.q_tree.specs.ReducedQueries.{reduced_of};
ghost use Rattle.ix_search.specs.Looking.{query_looks};
ghost use Rattle.db_state.specs.States.{OverContext, OverIndex};
ghost use Rattle.db_find.specs.Finding.{Answers, FindsAbove, FindsBy, FindsByMeaning, FindsBySearch};
ghost use Rattle.db_find.specs.Looking.{LooksInContext, LooksInIndex, flat_looks};
ghost use Rattle.db_find.specs.Meanings.{CanSearch, CanSearchIt};
ghost use Rattle.db_find.specs.Querying.{meaning_of};
ghost use Rattle.db_find.specs.Searches.{has_long_document, held_search, threshold_of as threshold_in};

use crate::catalogues::{find_in_catalogue, nothing_asked};
use crate::matching::find_in_rules;
use crate::querying::{Meaning, meaning_in};
use crate::searches::{Search, threshold_of};
use cat_where::Where;
use ct_base::Name;
use ct_keep::{KeepFault, Keeper};
use ix_search::{Hit, search as search_index};
use q_tree::Flat;
use st_parse::Whole;
use std::alloc::Global;
use tb_table::Column;

/// What a search finds.
#[derive(Drop)]
pub enum Found {
    /// No rows, since what it asks is refused, with this line.
    Refused(Vec<u8>),
    /// Rows with their scores, in order of their keys, and what else the search asks of them.
    Rows(Vec<Hit>, Where),
}

/// Keeps the rows with a score above a number.
fn keep_above(hits: &mut Vec<Hit>, above: u32)
    ensures { hits.new.items ≡ filter (λ h. nat_lt above h.score) hits.old.items }
{
    hits.retain(|hit| above < hit.score);
}

/// The rows to which a query gives a score above a number, in order of their keys. It searches once.
fn hits_above<K: Keeper>(
    alloc: Global,
    keeper: &mut K,
    index: &Name,
    flat: &Flat,
    above: u32,
) -> Result<Vec<Hit>, KeepFault>
    requires ready { (K.view keeper.old).ready }
    requires searchable { CanSearch flat.now }
    ensures found { OverContext K.view keeper.old index.now (λ m x. FindsAbove m.tables x flat.now above result) }
    ensures reads { OnlyReads K.view keeper.old keeper.new result }
    ensures at_most { Told K.view keeper.old (λ m. LooksAtMost K.view keeper.old keeper.new (query_looks m index.now (reduced_of flat.now))) }
{
    let mut hits = search_index(alloc, keeper, index, flat)?;
    keep_above(&mut hits, above);
    Ok(hits)
}

/// The rows that a query finds with a score above a number, in order of their keys; none without a query or a number.
fn found_hits<K: Keeper>(
    alloc: Global,
    keeper: &mut K,
    index: &Name,
    flat: &Option<Flat>,
    above: Option<u32>,
) -> Result<Vec<Hit>, KeepFault>
    requires ready { (K.view keeper.old).ready }
    requires searchable { CanSearchIt flat.now }
    ensures found { OverContext K.view keeper.old index.now (λ m x. FindsBy m.tables x flat.now above result) }
    ensures reads { OnlyReads K.view keeper.old keeper.new result }
    ensures at_most { Told K.view keeper.old (λ m. LooksAtMost K.view keeper.old keeper.new (flat_looks m index.now flat.now above)) }
{
    let Some(flat) = flat else {
        return Ok(Vec::new(alloc));
    };
    let Some(above) = above else {
        return Ok(Vec::new(alloc));
    };
    hits_above(alloc, keeper, index, flat, above)
}

/// What a CONTAINS finds in an index: the line of a refusal of its query text, or the rows in which the score of the text is above a
/// number; where there is no CONTEXT index of the name, no rows. It costs the reading of the query text, of the index's preferences and of
/// the thesauri that the text names, and then the search of the postings, and reads no text of a row.
pub fn find_in_context<K: Keeper>(
    alloc: Global,
    keeper: &mut K,
    index: &Name,
    query: &str,
    above: Whole,
) -> Result<Found, KeepFault>
    requires { (K.view keeper.old).ready }
    ensures found { OverContext K.view keeper.old index.now (λ m x. FindsByMeaning m.tables x (meaning_of x.prefs m.thesauri query.now) (threshold_in above) result) }
    ensures reads { OnlyReads K.view keeper.old keeper.new result }
    ensures at_most { LooksInContext K.view keeper.old keeper.new index.now query.now above }
{
    let meaning = meaning_in(alloc, keeper, index, query)?;
    match meaning {
        Meaning::Refused(line) => Ok(Found::Refused(line)),
        Meaning::Finds(flat) => {
            let above = threshold_of(above);
            let hits = found_hits(alloc, keeper, index, &flat, above)?;
            Ok(Found::Rows(hits, nothing_asked(alloc)))
        }
    }
}

/// What a search finds in an index, which is of the kind that answers it and on a table with these columns: the line of a refusal of its texts, or rows with what
/// else the search asks of them.
///
/// Of a CONTAINS it costs the reading of the query text, of the index's preferences and of the thesauri that the text names, and then the
/// search of the postings. It reads no text of a row. Of a CATSEARCH it costs the reading of both texts and of the catalogue's entry, and the walk through the
/// entries of the sub-index that the conditions bound most, between these bounds; where the query has a phrase of several words, it reads the text of each row at
/// which the walk stops, and else none. Of a MATCHES, whose document has at most 4000 bytes, it costs the reading of the document and of the index's preferences,
/// and the scoring of each rule that is filed under a key of the document or everywhere.
pub fn find<K: Keeper>(
    alloc: Global,
    keeper: &mut K,
    index: &Name,
    columns: &[Column],
    search: Search<'_>,
) -> Result<Found, KeepFault>
    requires ready { (K.view keeper.old).ready }
    requires short { has_long_document (held_search search) ≡ false }
    ensures found { OverIndex K.view keeper.old index.now (λ m x. Answers m.tables x columns.now (held_search search.entry) → FindsBySearch m.tables m.thesauri x (held_search search.entry) result) }
    ensures reads { OnlyReads K.view keeper.old keeper.new result }
    ensures at_most { LooksInIndex K.view keeper.old keeper.new index.now columns.now (held_search search.entry) }
{
    match search {
        Search::Contains { .. } => find_in_context(
            alloc,
            keeper,
            index,
            search.query(),
            search.above(),
        ),
        Search::Catsearch { .. } => {
            find_in_catalogue(
                alloc,
                keeper,
                index,
                columns,
                search.query(),
                search.structured(),
            )
        }
        Search::Matches { document, .. } => find_in_rules(alloc, keeper, index, document),
    }
}
