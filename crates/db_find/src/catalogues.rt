//! What CATSEARCH finds in a catalogue.
#![tactic(auto, using(ct_keep::specs::laws::Composing::reads_on, ct_keep::specs::laws::Composing::reads_short))]

ghost use Rattle.std.specs.Prelude.{◌≡◌, IfOk, Some, map, true};
ghost use Rattle.ct_keep.specs.KeeperViews.{OnlyReads};
ghost use Rattle.tx_settings.specs.Attributes.{can_be_set};
ghost use Rattle.q_tree.specs.ReducedQueries.{reduced_of};
ghost use Rattle.cat_search.specs.Queries.{is_boolean};
ghost use Rattle.ix_search.specs.Hits.{hit_rows};
ghost use Rattle.db_find.specs.Catalogues.{IsPlainQuery, unscored};
ghost use Rattle.db_find.specs.Finding.{FindsByTexts, FindsMeant, GivesMeant};
ghost use Rattle.db_find.specs.Looking.{OverCatalogueOf, OverColumns, OverColumnsOf, ReadsMeant, ReadsByTexts};
ghost use Rattle.db_find.specs.Meanings.{CanSearch, CanSearchIt};
ghost use Rattle.db_find.specs.Structured.{nothing_asked};

use crate::between::Between;
use crate::cat_queries::meaning_of_catsearch;
use crate::finding::Found;
use crate::querying::Meaning;
use crate::structured::{Structured, read_structured};
use cat_index::{Catalogue, catalogue_of};
use cat_search::rows_within;
use cat_where::Where;
use ct_base::{Listed, Memory, Name, RowKey};
use ct_keep::{KeepFault, Keeper};
use db_range::best_sub_index;
use ix_search::Hit;
use q_tree::Flat;
use st_parse::Cond;
use std::alloc::Global;
use tb_table::Column;

/// Asks for nothing.
pub(crate) fn nothing_asked(alloc: Global) -> Where
    ensures { result ≡ nothing_asked }
{
    Where {
        conds: Listed::empty(alloc),
        orders: Listed::empty(alloc),
    }
}

/// Of the rows that a catalogue on a table with these columns finds by a query at least all that meet conditions, in the order of their keys. It
/// looks for them in the sub-index whose places the conditions bound most, between these bounds.
fn rows_narrowed<K: Keeper>(
    alloc: Global,
    keeper: &mut K,
    index: &Name,
    catalogue: &Catalogue,
    columns: &[Column],
    flat: &Flat,
    conds: &[Cond],
) -> Result<Vec<RowKey>, KeepFault>
    requires ready { (K.view keeper.old).ready }
    requires set { can_be_set catalogue.now.prefs.lexer ≡ true }
    requires searchable { CanSearch flat.now }
    requires boolean { is_boolean (reduced_of flat.now) ≡ true }
    ensures rows { OverColumnsOf K.view keeper.old index.now catalogue.now columns.now (λ ts x. FindsMeant ts x (Some flat.now) conds.now result) }
    ensures reads { OnlyReads K.view keeper.old keeper.new result }
    ensures texts { OverCatalogueOf K.view keeper.old index.now catalogue.now (λ m x. ReadsMeant K.view keeper.old keeper.new (Some flat.now) m.tables x) }
{
    let best = best_sub_index(alloc, conds, catalogue.subs.as_slice(), columns)?;
    let between = Between { range: best.range };
    rows_within(alloc, keeper, index, catalogue, best.sub, flat, &between)
}

/// The same of a query that may be missing: none without one.
fn rows_found<K: Keeper>(
    alloc: Global,
    keeper: &mut K,
    index: &Name,
    catalogue: &Catalogue,
    columns: &[Column],
    flat: &Option<Flat>,
    conds: &[Cond],
) -> Result<Vec<RowKey>, KeepFault>
    requires ready { (K.view keeper.old).ready }
    requires set { can_be_set catalogue.now.prefs.lexer ≡ true }
    requires searchable { CanSearchIt flat.now }
    requires plain { IsPlainQuery flat.now }
    ensures rows { OverColumnsOf K.view keeper.old index.now catalogue.now columns.now (λ ts x. FindsMeant ts x flat.now conds.now result) }
    ensures reads { OnlyReads K.view keeper.old keeper.new result }
    ensures texts { OverCatalogueOf K.view keeper.old index.now catalogue.now (λ m x. ReadsMeant K.view keeper.old keeper.new flat.now m.tables x) }
{
    match flat {
        Some(flat) => rows_narrowed(alloc, keeper, index, catalogue, columns, flat, conds),
        None => Ok(Vec::new(alloc)),
    }
}

/// Rows with the score 0, for which no SCORE asks.
pub(crate) fn unscored_hits(alloc: Global, rows: Vec<RowKey>) -> Result<Vec<Hit>, Memory>
    ensures { IfOk result (λ hits. hit_rows hits.items ≡ map (λ r. unscored r.0) rows.items) }
{
    let mut hits = Vec::new(alloc);
    for key in rows {
        hits.push(Hit { key, score: 0 })?;
    }
    Ok(hits)
}

/// As many of the rows that a catalogue finds by a query as what is asked of them beside needs, in the order of their keys, with that.
fn rows_given<K: Keeper>(
    alloc: Global,
    keeper: &mut K,
    index: &Name,
    catalogue: &Catalogue,
    columns: &[Column],
    flat: &Option<Flat>,
    asked: Where,
) -> Result<Found, KeepFault>
    requires ready { (K.view keeper.old).ready }
    requires set { can_be_set catalogue.now.prefs.lexer ≡ true }
    requires searchable { CanSearchIt flat.now }
    requires plain { IsPlainQuery flat.now }
    ensures rows { OverColumnsOf K.view keeper.old index.now catalogue.now columns.now (λ ts x. IfOk result (GivesMeant ts x flat.now asked)) }
    ensures reads { OnlyReads K.view keeper.old keeper.new result }
    ensures texts { OverCatalogueOf K.view keeper.old index.now catalogue.now (λ m x. ReadsMeant K.view keeper.old keeper.new flat.now m.tables x) }
{
    let rows = rows_found(
        alloc,
        keeper,
        index,
        catalogue,
        columns,
        flat,
        asked.conds.as_slice(),
    )?;
    let hits = unscored_hits(alloc, rows)?;
    Ok(Found::Rows(hits, asked))
}

/// What a catalogue finds by a query text, and what a structured query asks of that; or the line of a refusal.
fn find_by_texts<K: Keeper>(
    alloc: Global,
    keeper: &mut K,
    index: &Name,
    catalogue: &Catalogue,
    columns: &[Column],
    query: &str,
    structured: &str,
) -> Result<Found, KeepFault>
    requires ready { (K.view keeper.old).ready }
    requires set { can_be_set catalogue.now.prefs.lexer ≡ true }
    ensures found { OverColumnsOf K.view keeper.old index.now catalogue.now columns.now (λ ts x. FindsByTexts ts x query.now structured.now result) }
    ensures reads { OnlyReads K.view keeper.old keeper.new result }
    ensures texts { OverColumnsOf K.view keeper.old index.now catalogue.now columns.now (ReadsByTexts K.view keeper.old keeper.new query.now structured.now) }
{
    let flat = match meaning_of_catsearch(alloc, &catalogue.prefs, query)? {
        Meaning::Refused(line) => return Ok(Found::Refused(line)),
        Meaning::Finds(flat) => flat,
    };
    let asked = match read_structured(alloc, structured, columns, catalogue.subs.as_slice())? {
        Structured::Refused(line) => return Ok(Found::Refused(line)),
        Structured::Asks(asked) => asked,
    };
    rows_given(alloc, keeper, index, catalogue, columns, &flat, asked)
}

/// What a CATSEARCH finds in a catalogue on a table with these columns: of all rows of the table those whose text meets the query text, and what the structured
/// query asks of them; or the line of a refusal. Where there is no such catalogue it finds nothing.
pub(crate) fn find_in_catalogue<K: Keeper>(
    alloc: Global,
    keeper: &mut K,
    index: &Name,
    columns: &[Column],
    query: &str,
    structured: &str,
) -> Result<Found, KeepFault>
    requires { (K.view keeper.old).ready }
    ensures found { OverColumns K.view keeper.old index.now columns.now (λ ts x. FindsByTexts ts x query.now structured.now result) }
    ensures reads { OnlyReads K.view keeper.old keeper.new result }
    ensures texts { OverColumns K.view keeper.old index.now columns.now (ReadsByTexts K.view keeper.old keeper.new query.now structured.now) }
{
    let Some(catalogue) = catalogue_of(alloc, keeper, index)? else {
        return Ok(Found::Rows(Vec::new(alloc), nothing_asked(alloc)));
    };
    find_by_texts(alloc, keeper, index, &catalogue, columns, query, structured)
}
