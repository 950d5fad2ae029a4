//! What query texts mean.
#![tactic(auto, using(ct_keep::specs::laws::Composing::reads_on, ct_keep::specs::laws::Composing::reads_short))]

ghost use Rattle.std.specs.Prelude.{◌≡◌, IfOk, true};
ghost use Rattle.ct_keep.specs.KeeperViews.{OnlyReads};
ghost use Rattle.ct_keep.specs.Looks.{no_looks, LooksAtMost};
ghost use Rattle.q_tree.specs.Limits.{keeps_limits};
ghost use Rattle.q_tree.specs.Trees.{tree_of};
ghost use Rattle.q_reduce.specs.Results.{named_pairs};
ghost use Rattle.db_cond.specs.Refused.{refusal_of};
ghost use Rattle.db_state.specs.States.{OverContext, Sees};
ghost use Rattle.db_find.specs.Meanings.{Means, MeansFault, IsSearchable};
ghost use Rattle.db_find.specs.Querying.{meaning_by, meaning_of as text_meaning, meaning_of_tree, Refuses};
ghost use Rattle.db_find.specs.Thesauri.{CountsNothing};

use crate::thesauri::named_thesauri;
use ct_base::{Memory, Name};
use ct_keep::{KeepFault, Keeper};
use db_cond::{Fault, fault_line};
use ix_context::prefs_of;
use q_parse::{QueryFault, parse};
use q_reduce::{NamedThesaurus, ReduceCtx, ReduceFault, reduce, thesauri_in};
use q_tree::{Flat, Query};
use std::alloc::Global;
use tx_settings::Prefs;

/// What a query text means to an index.
#[derive(Drop)]
pub(crate) enum Meaning {
    /// It is refused, with this line.
    Refused(Vec<u8>),
    /// It finds what this reduced query does; without one nothing.
    Finds(Option<Flat>),
}

/// The meaning of a text that is refused.
pub(crate) fn refused(alloc: Global, fault: Fault<'_>) -> Result<Meaning, Memory>
    ensures meaning { IfOk result (λ meaning. Means meaning (Refuses (refusal_of fault.entry))) }
    ensures searchable { IfOk result (λ meaning. IsSearchable meaning) }
{
    Ok(Meaning::Refused(fault_line(alloc, fault)?))
}

/// The meaning of a query that was read, by these thesauri.
pub(crate) fn meaning_by(
    alloc: Global,
    prefs: &Prefs,
    thesauri: &[NamedThesaurus],
    query: &Query,
) -> Result<Meaning, Memory>
    requires limits { keeps_limits (tree_of query.now) ≡ true }
    ensures meaning { IfOk result (λ meaning. Means meaning (meaning_by prefs.now (named_pairs thesauri.now) (tree_of query.now))) }
    ensures searchable { IfOk result (λ meaning. IsSearchable meaning) }
{
    let ctx = ReduceCtx {
        lexer: &prefs.lexer,
        stop: &prefs.stop,
        group: &prefs.group,
        thesauri,
    };
    match reduce(alloc, query, &ctx) {
        Ok(found) => Ok(Meaning::Finds(found)),
        Err(ReduceFault::NoSection(name)) => refused(alloc, Fault::UnknownSection(name.as_str())),
        Err(ReduceFault::FieldInside(name)) => refused(alloc, Fault::FieldInside(name.as_str())),
        Err(ReduceFault::NoThesaurus(name)) => {
            refused(alloc, Fault::UnknownThesaurus(name.as_str()))
        }
        Err(ReduceFault::ManyTerms) => refused(alloc, Fault::TooManyTerms),
        Err(ReduceFault::ManyTokens(place)) => refused(alloc, Fault::NotOneWord(place)),
        Err(ReduceFault::Memory) => Err(Memory),
    }
}

/// The meaning of a query that was read, by the thesauri that it names, of which each is loaded once.
fn meaning_of_query<K: Keeper>(
    alloc: Global,
    keeper: &mut K,
    prefs: &Prefs,
    query: &Query,
) -> Result<Meaning, KeepFault>
    requires ready { (K.view keeper.old).ready }
    requires limits { keeps_limits (tree_of query.now) ≡ true }
    ensures meaning { Sees K.view keeper.old result (λ m meaning. Means meaning (meaning_of_tree prefs.now m.thesauri (tree_of query.now))) }
    ensures searchable { IfOk result (λ meaning. IsSearchable meaning) }
    ensures reads { OnlyReads K.view keeper.old keeper.new result }
    ensures at_most { CountsNothing K.view keeper.old keeper.new }
{
    let names = thesauri_in(alloc, query)?;
    let thesauri = named_thesauri(alloc, keeper, &names)?;
    let meaning = meaning_by(alloc, prefs, &thesauri, query)?;
    Ok(meaning)
}

/// The meaning of a text that is no query.
fn meaning_of_fault(alloc: Global, fault: QueryFault) -> Result<Meaning, Memory>
    ensures meaning { IfOk result (λ meaning. MeansFault meaning fault) }
    ensures searchable { IfOk result (λ meaning. IsSearchable meaning) }
{
    match fault {
        QueryFault::Syntax(place) => refused(alloc, Fault::QuerySyntax(place)),
        QueryFault::NotInProfile(place) => refused(alloc, Fault::NotInProfile(place)),
        QueryFault::BadNumber(place) => refused(alloc, Fault::QueryNumber(place)),
        QueryFault::TooLarge => refused(alloc, Fault::QueryTooLarge),
        QueryFault::Memory => Err(Memory),
    }
}

/// What a query text means to an index with these preferences: that it is refused, finds nothing, or finds what a reduced query does.
fn meaning_of<K: Keeper>(
    alloc: Global,
    keeper: &mut K,
    prefs: &Prefs,
    text: &str,
) -> Result<Meaning, KeepFault>
    requires { (K.view keeper.old).ready }
    ensures meaning { Sees K.view keeper.old result (λ m meaning. Means meaning (text_meaning prefs.now m.thesauri text.now)) }
    ensures searchable { IfOk result (λ meaning. IsSearchable meaning) }
    ensures reads { OnlyReads K.view keeper.old keeper.new result }
    ensures at_most { CountsNothing K.view keeper.old keeper.new }
{
    match parse(alloc, text) {
        Ok(query) => meaning_of_query(alloc, keeper, prefs, &query),
        Err(fault) => Ok(meaning_of_fault(alloc, fault)?),
    }
}

/// What a query text means to a CONTEXT index. Where there is no such index it finds nothing.
///
/// It reads no text and no posting. Its cost is that of the index's entry, of which it reads all preferences, and of loading the thesauri
/// that the query names.
pub(crate) fn meaning_in<K: Keeper>(
    alloc: Global,
    keeper: &mut K,
    index: &Name,
    text: &str,
) -> Result<Meaning, KeepFault>
    requires { (K.view keeper.old).ready }
    ensures meaning { OverContext K.view keeper.old index.now (λ m x. IfOk result (λ meaning. Means meaning (text_meaning x.prefs m.thesauri text.now))) }
    ensures searchable { IfOk result (λ meaning. IsSearchable meaning) }
    ensures reads { OnlyReads K.view keeper.old keeper.new result }
    ensures at_most { OverContext K.view keeper.old index.now (λ m x. LooksAtMost K.view keeper.old keeper.new no_looks) }
{
    let prefs = prefs_of(alloc, keeper, index)?;
    match prefs {
        Some(prefs) => meaning_of(alloc, keeper, &prefs, text),
        None => Ok(Meaning::Finds(None)),
    }
}
