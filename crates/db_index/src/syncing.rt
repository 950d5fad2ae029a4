//! CTX_DDL.SYNC_INDEX.
#![tactic(auto, using(ct_keep::specs::laws::Composing::reads_on, ct_keep::specs::laws::Composing::reads_short, ct_keep::specs::laws::Composing::accepts_on))]

ghost use Rattle.std.specs.Prelude.{◌≡◌, IfOk, IfSome, Some, is_some};
ghost use Rattle.ct_keep.specs.KeeperViews.{OnlyReads};
ghost use Rattle.db_call.specs.Arguments.{argument_name as name_there};
ghost use Rattle.db_index.specs.Syncing.{MakesSyncOf, are_sync_args as sync_args, is_bad_size as bad_size, is_memory_size as memory_size, is_other_kind as other_kind, is_rule_index as rule_index_kind, is_unit as unit_letter, sync_index as sync_effect, synced_kind};
ghost use Rattle.db_names.specs.declared.heads.IndexKind.TheVariants as kind;
ghost use Rattle.db_state.specs.Lines.{call_done};
ghost use Rattle.db_state.specs.Plans.{IsStorePlan, Plans, Replies, line_for_all};
ghost use Rattle.db_state.specs.Shapes.{AcceptsStatements, AreStoreChanges};

use crate::index_calls::{index_call_fault, kind_named, unknown_name};
use crate::thesauri::all_thesauri;
use ct_base::Name;
use ct_keep::{Batch, KeepFault, Keeper};
use db_call::{are_texts, name_at};
use db_cond::Fault;
use db_names::IndexKind;
use db_state::{Plan, carry_out};
use ix_context::{ContextFault, sync};
use rule_index::Rules;
use st_parse::Arg;
use std::alloc::Global;
use std::thread::Threads;

/// Whether the arguments are one text, or two.
fn are_sync_args(args: &[Arg]) -> bool
    ensures { result ≡ sync_args args.now }
{
    are_texts(args, 1) || are_texts(args, 2)
}

/// Whether the byte is K, M or G, in any case.
fn is_unit(byte: u8) -> bool
    ensures { result ≡ unit_letter byte }
{
    let byte = byte.to_ascii_lowercase();
    byte == b'k' || byte == b'm' || byte == b'g'
}

/// Whether the bytes are digits and one of K, M and G.
fn is_memory_size(text: &[u8]) -> bool
    ensures { result ≡ memory_size text.now }
{
    let mut some = false;
    let mut rest = text;
    while let [first, others @ ..] = rest {
        if others.is_empty() {
            return some && is_unit(*first);
        }
        if !first.is_ascii_digit() {
            return false;
        }
        some = true;
        rest = others;
    }
    false
}

/// Whether the second argument is a text that is no size of memory.
fn is_bad_size(args: &[Arg]) -> bool
    ensures { result ≡ bad_size args.now }
{
    match args {
        [Arg::Text(_), Arg::Text(memory)] => !is_memory_size(memory.as_str().as_bytes()),
        _ => false,
    }
}

/// Whether this is the kind of an index that isn't synchronised, since no row waits in it.
fn is_other_kind(kind: Option<IndexKind>) -> bool
    ensures { result ≡ other_kind kind }
{
    match kind {
        None | Some(IndexKind::Context | IndexKind::Rules) => false,
        Some(IndexKind::Catalogue) => true,
    }
}

/// Whether this is the kind of a rule index.
fn is_rule_index(kind: Option<IndexKind>) -> bool
    ensures { result ≡ rule_index_kind kind }
{
    match kind {
        None | Some(IndexKind::Context | IndexKind::Catalogue) => false,
        Some(IndexKind::Rules) => true,
    }
}

/// The changes of the synchronisation of a CONTEXT index; None where it would need more documents than there are numbers.
fn synced_context<R: Threads + Sync, K: Keeper>(
    rt: &R,
    alloc: Global,
    degree: u32,
    keeper: &mut K,
    index: &Name,
) -> Result<Option<Batch>, KeepFault>
    requires { (K.view keeper.old).ready }
    ensures changes { MakesSyncOf K.view keeper.old kind.Context index.now result }
    ensures entries { IfOk result (λ found. IfSome found AreStoreChanges) }
    ensures reads { OnlyReads K.view keeper.old keeper.new result }
{
    let mut batch = Batch::new(alloc);
    match sync(rt, alloc, degree, keeper, &mut batch, index) {
        Ok(()) => Ok(Some(batch)),
        Err(ContextFault::TooMany) => Ok(None),
        Err(ContextFault::Memory) => Err(KeepFault::Memory),
        Err(ContextFault::Disk) => Err(KeepFault::Disk),
    }
}

/// The changes of the synchronisation of a rule index, by the thesauri as they are, or else of a CONTEXT index; None where it would
/// need more documents than there are numbers.
fn synced<R: Threads + Sync, K: Keeper>(
    rt: &R,
    alloc: Global,
    degree: u32,
    keeper: &mut K,
    rules: bool,
    index: &Name,
) -> Result<Option<Batch>, KeepFault>
    requires { (K.view keeper.old).ready }
    ensures changes { MakesSyncOf K.view keeper.old (synced_kind rules) index.now result }
    ensures entries { IfOk result (λ found. IfSome found AreStoreChanges) }
    ensures reads { OnlyReads K.view keeper.old keeper.new result }
{
    if !rules {
        return synced_context(rt, alloc, degree, keeper, index);
    }
    let thesauri = all_thesauri(alloc, keeper)?;
    let mut batch = Batch::new(alloc);
    Rules::sync(alloc, keeper, &mut batch, index, &thesauri)?;
    Ok(Some(batch))
}

/// What a synchronisation comes to: of the index of this name, by these arguments.
fn sync_plan<'a, R: Threads + Sync, K: Keeper>(
    rt: &R,
    alloc: Global,
    degree: u32,
    keeper: &mut K,
    name: &'a Option<Name>,
    args: &[Arg],
) -> Result<Plan<'a>, KeepFault>
    requires ready { (K.view keeper.old).ready }
    requires named { name.now ≡ name_there 0 args.now }
    ensures plan { Plans K.view keeper.old result (λ m. sync_effect m args.now) call_done }
    ensures entries { IfOk result IsStorePlan }
    ensures reads { OnlyReads K.view keeper.old keeper.new result }
{
    let kind = kind_named(alloc, keeper, name)?;
    let unknown = unknown_name(kind.is_some(), name);
    let shaped = are_sync_args(args);
    let bad = is_bad_size(args);
    if let Some(fault) = index_call_fault(unknown, is_other_kind(kind), shaped, bad) {
        return Ok(Plan::Refused(fault));
    }
    let Some(index) = name else {
        return Ok(Plan::Refused(Fault::BadValue));
    };
    let found = synced(rt, alloc, degree, keeper, is_rule_index(kind), index)?;
    let Some(batch) = found else {
        return Ok(Plan::Refused(Fault::LimitReached));
    };
    Ok(Plan::Done(batch))
}

/// CTX_DDL.SYNC_INDEX: each row that waits becomes a document of the CONTEXT index, or is read as a rule of the rule index: reduced with
/// the thesauri as they are now and marked, or faulty. A faulty rule is tried again only once its row waits again. The first of these
/// that holds: E11 where no index has the name; E27 where the index is a catalogue, in which no row waits; E13 where the arguments are
/// neither one text nor two; E30 where the first spells no name, or the second no size of memory; E31 where a CONTEXT index would have
/// over 2^32 - 2 documents. At most `degree` threads may read the texts of a CONTEXT index. Its cost is what the texts hold, times a
/// logarithm; for a rule index also that of loading all thesauri, once.
pub fn sync_index<R: Threads + Sync, K: Keeper>(
    rt: &R,
    alloc: Global,
    degree: u32,
    keeper: &mut K,
    args: &[Arg],
) -> Result<Vec<u8>, KeepFault>
    requires { AcceptsStatements (K.view keeper.old) }
    ensures { Replies K.view keeper.old keeper.new result (λ m. sync_effect m args.now) (Some (line_for_all call_done)) }
{
    let name = name_at(alloc, args, 0)?;
    match sync_plan(rt, alloc, degree, keeper, &name, args) {
        Ok(plan) => carry_out(
            alloc,
            keeper,
            plan,
            b"PL/SQL procedure successfully completed.\n",
        ),
        Err(fault) => Err(fault),
    }
}
