//! CTX_QUERY.RESULT_SET.
#![tactic(auto, using(ct_keep::specs::laws::Composing::reads_on, ct_keep::specs::laws::Composing::reads_short))]

ghost use Rattle.std.specs.Prelude.{◌≡◌, ◌*◌, false, length, not, IfOk};
ghost use Rattle.ct_keep.specs.KeeperViews.{OnlyReads};
ghost use Rattle.ct_keep.specs.Looks.{no_looks, LooksAtMost};
ghost use Rattle.ix_kinds.specs.Rows.{table_at};
ghost use Rattle.db_cond.specs.Faults.{BadValue, NoIndexOfKind, WrongValues};
ghost use Rattle.db_cond.specs.Refused.{refusal_of};
ghost use Rattle.db_state.specs.Effects.{Refused, refuse, reply_by};
ghost use Rattle.db_state.specs.States.{Sees};
ghost use Rattle.db_rows.specs.Texts.{texts_alone};
ghost use Rattle.db_hits.specs.Calling.{is_other_kind as other_kind, parts_in, query_in, result_set as result_effect};
ghost use Rattle.db_hits.specs.Descriptors.{has_bad_cut, named_texts};
ghost use Rattle.db_hits.specs.Giving.{HasHead, LooksFewOf, NamedLooksFew, RepliesHits, RepliesNamed, RepliesOf, RepliesSearch, SearchLooksFew};
ghost use Rattle.db_hits.specs.Looking.{ResultLooksFew};

use crate::checking::parts_fault;
use crate::listing::{or_none, part_lines};
use crate::rows::{names_of, rows_of, sources_of};
use ct_base::{Memory, Name};
use ct_keep::{KeepFault, Keeper};
use db_call::{are_texts, name_at, text_at};
use db_cond::{Fault, fault_line};
use db_find::{Found, find_in_context};
use db_names::{IndexHead, IndexKind, index_of};
use db_state::table_columns;
use ix_search::Hit;
use rs_result::{Descriptor, ResultPart, read};
use st_parse::{Arg, Whole};
use std::alloc::Global;
use tb_table::Column;

/// The descriptor among the arguments, where the third is a text that is one.
fn descriptor_at(alloc: Global, args: &[Arg]) -> Result<Option<Descriptor>, Memory>
    ensures { IfOk result (λ found. found ≡ parts_in args.now) }
{
    match text_at(args, 2) {
        Some(text) => read(alloc, text),
        None => Ok(None),
    }
}

/// The query text among the arguments; the empty one where the second is no text.
fn query_at(args: &[Arg]) -> &str
    ensures { result.now ≡ query_in args.now }
{
    match text_at(args, 1) {
        Some(text) => text,
        None => "",
    }
}

/// Whether this is the kind of an index that has no hits.
fn is_other_kind(kind: IndexKind) -> bool
    ensures { result ≡ other_kind kind }
{
    match kind {
        IndexKind::Context => false,
        IndexKind::Catalogue | IndexKind::Rules => true,
    }
}

/// Why a call without a descriptor or without the name of an index is refused, by whether its index is of another kind, and whether its
/// arguments are three texts.
fn arguments_fault(other: bool, texts: bool) -> Fault<'static>
    ensures { refuse other NoIndexOfKind (refuse (not texts) WrongValues (Refused BadValue)) ≡ Refused (refusal_of result) }
{
    if other {
        return Fault::NoIndexOfKind;
    }
    if !texts {
        return Fault::WrongValues;
    }
    Fault::BadValue
}

/// The head of the index of a name.
fn head_of<K: Keeper>(
    alloc: Global,
    keeper: &mut K,
    index: &Name,
) -> Result<Option<IndexHead>, KeepFault>
    requires { (K.view keeper.old).ready }
    ensures head { Sees K.view keeper.old result (λ m found. HasHead m index.now found) }
    ensures reads { OnlyReads K.view keeper.old keeper.new result }
    ensures at_most { LooksAtMost K.view keeper.old keeper.new no_looks }
{
    let head = index_of(alloc, keeper, index)?;
    Ok(head)
}

/// The columns of a table; none where there is no such table.
fn columns_of<K: Keeper>(
    alloc: Global,
    keeper: &mut K,
    table: &Name,
) -> Result<Vec<Column>, KeepFault>
    requires { (K.view keeper.old).ready }
    ensures columns { Sees K.view keeper.old result (λ m columns. columns.items ≡ (table_at m.tables table.now).columns) }
    ensures reads { OnlyReads K.view keeper.old keeper.new result }
    ensures at_most { LooksAtMost K.view keeper.old keeper.new no_looks }
{
    match table_columns(alloc, keeper, table)? {
        Some(columns) => Ok(columns),
        None => Ok(Vec::new(alloc)),
    }
}

/// What the parts of a descriptor print of hits, of which the values are read that it names: each text once.
fn hits_reply<K: Keeper>(
    alloc: Global,
    keeper: &mut K,
    table: &Name,
    columns: &[Column],
    parts: &[ResultPart],
    hits: &[Hit],
) -> Result<Vec<u8>, KeepFault>
    requires ready { (K.view keeper.old).ready }
    requires cuts { has_bad_cut parts.now ≡ false }
    ensures reply { RepliesHits K.view keeper.old table.now columns.now parts.now hits.now result }
    ensures reads { OnlyReads K.view keeper.old keeper.new result }
    ensures at_most { LooksAtMost K.view keeper.old keeper.new (texts_alone (length hits.now * length (named_texts parts.now columns.now))) }
{
    let names = names_of(alloc, parts, columns)?;
    let sources = sources_of(alloc, &names, columns)?;
    let rows = rows_of(alloc, keeper, table, &sources, hits)?;
    let lines = part_lines(alloc, parts, &names, rows)?;
    Ok(or_none(alloc, lines)?)
}

/// What follows the checks of the arguments: why the query text is refused, or what the parts print of the rows that it finds.
fn search<K: Keeper>(
    alloc: Global,
    keeper: &mut K,
    index: &Name,
    table: &Name,
    columns: &[Column],
    query: &str,
    parts: &[ResultPart],
) -> Result<Vec<u8>, KeepFault>
    requires ready { (K.view keeper.old).ready }
    requires cuts { has_bad_cut parts.now ≡ false }
    ensures reply { RepliesSearch K.view keeper.old index.now table.now columns.now query.now parts.now result }
    ensures reads { OnlyReads K.view keeper.old keeper.new result }
    ensures at_most { SearchLooksFew K.view keeper.old keeper.new index.now table.now columns.now query.now parts.now }
{
    ix_search::looking_law();
    let found = find_in_context(alloc, keeper, index, query, Whole::Fits(0))?;
    match found {
        Found::Refused(line) => Ok(line),
        Found::Rows(hits, ..) => hits_reply(alloc, keeper, table, columns, parts, &hits),
    }
}

/// The same of the index with this head.
fn result_of<K: Keeper>(
    alloc: Global,
    keeper: &mut K,
    index: &Name,
    head: &IndexHead,
    args: &[Arg],
) -> Result<Vec<u8>, KeepFault>
    requires { (K.view keeper.old).ready }
    ensures reply { RepliesOf K.view keeper.old index.now head.now args.now result }
    ensures reads { OnlyReads K.view keeper.old keeper.new result }
    ensures at_most { LooksFewOf K.view keeper.old keeper.new index.now head.now args.now }
{
    let other = is_other_kind(head.kind);
    let texts = are_texts(args, 3);
    let Some(descriptor) = descriptor_at(alloc, args)? else {
        return Ok(fault_line(alloc, arguments_fault(other, texts))?);
    };
    let parts = descriptor.as_slice();
    let columns = columns_of(alloc, keeper, &head.target.table)?;
    if let Some(fault) = parts_fault(&columns, other, texts, parts) {
        return Ok(fault_line(alloc, fault)?);
    }
    search(
        alloc,
        keeper,
        index,
        &head.target.table,
        &columns,
        query_at(args),
        parts,
    )
}

/// The same of the index of this name.
fn result_named<K: Keeper>(
    alloc: Global,
    keeper: &mut K,
    index: &Name,
    args: &[Arg],
) -> Result<Vec<u8>, KeepFault>
    requires { (K.view keeper.old).ready }
    ensures reply { RepliesNamed K.view keeper.old index.now args.now result }
    ensures reads { OnlyReads K.view keeper.old keeper.new result }
    ensures at_most { NamedLooksFew K.view keeper.old keeper.new index.now args.now }
{
    let Some(head) = head_of(alloc, keeper, index)? else {
        return Ok(fault_line(alloc, Fault::UnknownName(index.as_str()))?);
    };
    result_of(alloc, keeper, index, &head, args)
}

/// CTX_QUERY.RESULT_SET: what the parts of a descriptor print of the rows that a query text finds in a CONTEXT index with a score above 0.
/// The first of these that holds refuses it: E11 where no index has the name, or its table no column that the descriptor names, of which a text that is no
/// descriptor names none; E27 where the index is of another kind; E13 where the arguments aren't three texts, or a key or a group is
/// a CLOB; E30 where the first argument spells no name or the third is no descriptor; E22 where hits are asked for from or to a number that isn't one from 1 to
/// 100,000, or from a greater number than to; and what refuses the query text.
///
/// Its cost is that of the search; of reading, of each row that this finds, the texts that the descriptor names, each once, and its
/// numbers, where it names one; and of n log n comparisons of n rows for each part that puts them in order or counts them. Of a row
/// it holds the values that are named, and where none is, its key and its score. It changes nothing, and never answers Full.
pub fn result_set<K: Keeper>(
    alloc: Global,
    keeper: &mut K,
    args: &[Arg],
) -> Result<Vec<u8>, KeepFault>
    requires { (K.view keeper.old).ready }
    ensures reply { Sees K.view keeper.old result (λ m reply. reply.items ≡ reply_by (result_effect m args.now)) }
    ensures reads { OnlyReads K.view keeper.old keeper.new result }
    ensures at_most { ResultLooksFew K.view keeper.old keeper.new args.now }
{
    let Some(index) = name_at(alloc, args, 0)? else {
        return Ok(fault_line(alloc, arguments_fault(false, are_texts(args, 3)))?);
    };
    result_named(alloc, keeper, &index, args)
}
