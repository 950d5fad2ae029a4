//! What the query texts of CATSEARCH mean.
#![tactic(auto)]

ghost use Rattle.std.specs.Prelude.{◌≡◌, IfOk, true};
ghost use Rattle.q_tree.specs.Limits.{keeps_limits};
ghost use Rattle.q_tree.specs.Trees.{tree_of};
ghost use Rattle.cat_query.specs.PlainTrees.{is_plain_tree};
ghost use Rattle.cat_query.specs.Verdicts.{Found};
ghost use Rattle.db_find.specs.Catalogues.{IsPlainMeaning, verdict_meaning, catsearch_meaning};
ghost use Rattle.db_find.specs.Meanings.{IsSearchable, Means};

use crate::querying::{Meaning, meaning_by, refused};
use cat_query::{CatFault, read};
use ct_base::Memory;
use db_cond::Fault;
use q_tree::Query;
use std::alloc::Global;
use tx_settings::Prefs;

/// The meaning of a query that was read. Nothing of it can be refused where it is reduced, since it has words, AND, OR and NOT alone.
fn meaning_of_plain(alloc: Global, prefs: &Prefs, query: &Query) -> Result<Meaning, Memory>
    requires limits { keeps_limits (tree_of query.now) ≡ true }
    requires plain { is_plain_tree (tree_of query.now) ≡ true }
    ensures meaning { IfOk result (λ meaning. Means meaning (verdict_meaning prefs.now (Found (tree_of query.now)))) }
    ensures searchable { IfOk result (λ meaning. IsSearchable meaning) }
    ensures plain { IfOk result (λ meaning. IsPlainMeaning meaning) }
{
    meaning_by(alloc, prefs, &[], query)
}

/// What a query text of CATSEARCH means to an index with these preferences: that it is refused, finds nothing, or finds what a reduced query does.
pub(crate) fn meaning_of_catsearch(
    alloc: Global,
    prefs: &Prefs,
    text: &str,
) -> Result<Meaning, Memory>
    ensures meaning { IfOk result (λ meaning. Means meaning (catsearch_meaning prefs.now text.now)) }
    ensures searchable { IfOk result (λ meaning. IsSearchable meaning) }
    ensures plain { IfOk result (λ meaning. IsPlainMeaning meaning) }
{
    match read(alloc, text) {
        Ok(query) => meaning_of_plain(alloc, prefs, &query),
        Err(CatFault::Syntax(place)) => refused(alloc, Fault::QuerySyntax(place)),
        Err(CatFault::TooLarge) => refused(alloc, Fault::QueryTooLarge),
        Err(CatFault::Memory) => Err(Memory),
    }
}
