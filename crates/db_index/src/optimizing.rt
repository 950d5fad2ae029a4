//! CTX_DDL.OPTIMIZE_INDEX.
#![tactic(auto, using(ct_keep::specs::laws::Composing::reads_on, ct_keep::specs::laws::Composing::reads_short, ct_keep::specs::laws::Composing::accepts_on))]

ghost use Rattle.std.specs.Prelude.{◌≡◌, IfOk, Some};
ghost use Rattle.std.specs.Option.{option_map};
ghost use Rattle.ct_keep.specs.KeeperViews.{OnlyReads};
ghost use Rattle.db_call.specs.Arguments.{argument_name as name_there};
ghost use Rattle.db_state.specs.Lines.{call_done};
ghost use Rattle.db_state.specs.Plans.{IsStorePlan, Plans, Replies, line_for_all};
ghost use Rattle.db_state.specs.Shapes.{AcceptsStatements, AreStoreChanges};
ghost use Rattle.tx_settings.specs.Attributes.{is_spelt};
ghost use Rattle.ix_optimize.specs.Optimising.{level_of};
ghost use Rattle.db_index.specs.Optimizing.{LeadsToOptimised, fast_word, are_optimize_args as optimize_args, is_bad_level as bad_level, is_no_context as no_context, level_asked as asked_level, limit_of as limit_by, optimize_index as optimize_effect};

use crate::index_calls::{index_call_fault, kind_named, unknown_name};
use ct_base::Name;
use ct_keep::{Batch, KeepFault, Keeper};
use db_call::{name_at, spells_word, text_at};
use db_cond::Fault;
use db_names::IndexKind;
use db_state::{Plan, carry_out};
use ix_optimize::{Level, optimize};
use st_parse::{Arg, Whole};
use std::alloc::Global;

/// How many terms one call handles at most.
const LIMIT_MOST: i64 = 1_000_000;

/// Whether the text is the level FAST, in any case.
fn is_fast(level: &str) -> bool
    ensures { result ≡ is_spelt fast_word level.now }
{
    level.eq_ignore_ascii_case("fast")
}

/// Whether the arguments are two texts, and for any level but FAST perhaps a number.
fn are_optimize_args(args: &[Arg]) -> bool
    ensures { result ≡ optimize_args args.now }
{
    match args {
        [Arg::Text(_), Arg::Text(_)] => true,
        [Arg::Text(_), Arg::Text(level), Arg::Number(_)] => !is_fast(level.as_str()),
        _ => false,
    }
}

/// Whether the second argument is neither FAST nor FULL.
fn is_bad_level(args: &[Arg]) -> bool
    ensures { result ≡ bad_level args.now }
{
    let level = text_at(args, 1);
    !spells_word(level, "fast") && !spells_word(level, "full")
}

/// The limit, where it is from 1 to 1,000,000.
fn limit_of(limit: Whole) -> Option<u32>
    ensures { result ≡ limit_by limit }
{
    match limit {
        Whole::Fits(n) if 1 <= n && n <= LIMIT_MOST => Some(n as u32),
        Whole::Fits(_) | Whole::Beyond => None,
    }
}

/// The level that the arguments ask for, where they have their number and their types; None where the limit is out of its range.
fn level_asked(args: &[Arg]) -> Option<Level>
    ensures { option_map (λ level. level_of level) result ≡ asked_level args.now }
{
    match args {
        [Arg::Text(_), Arg::Text(level)] if is_fast(level.as_str()) => Some(Level::Fast),
        [Arg::Text(_), Arg::Text(_)] => Some(Level::Full),
        [Arg::Text(_), Arg::Text(_), Arg::Number(limit)] => limit_of(*limit).map(Level::FullUpTo),
        _ => None,
    }
}

/// Whether this is the kind of an index that isn't optimised.
fn is_no_context(kind: Option<IndexKind>) -> bool
    ensures { result ≡ no_context kind }
{
    match kind {
        None | Some(IndexKind::Context) => false,
        Some(IndexKind::Catalogue | IndexKind::Rules) => true,
    }
}

/// The changes of the optimisation of a CONTEXT index. How far it came stands in the entry of the index.
fn optimized<K: Keeper>(
    alloc: Global,
    keeper: &mut K,
    index: &Name,
    level: Level,
) -> Result<Batch, KeepFault>
    requires { (K.view keeper.old).ready }
    ensures changes { LeadsToOptimised K.view keeper.old (level_of level) index.now result }
    ensures entries { IfOk result AreStoreChanges }
    ensures reads { OnlyReads K.view keeper.old keeper.new result }
{
    let mut batch = Batch::new(alloc);
    let _progress = optimize(alloc, keeper, &mut batch, index, level)?;
    Ok(batch)
}

/// What an optimisation comes to: of the index of this name, by these arguments.
fn optimize_plan<'a, K: Keeper>(
    alloc: Global,
    keeper: &mut K,
    name: &'a Option<Name>,
    args: &[Arg],
) -> Result<Plan<'a>, KeepFault>
    requires ready { (K.view keeper.old).ready }
    requires named { name.now ≡ name_there 0 args.now }
    ensures plan { Plans K.view keeper.old result (λ m. optimize_effect m args.now) call_done }
    ensures entries { IfOk result IsStorePlan }
    ensures reads { OnlyReads K.view keeper.old keeper.new result }
{
    let kind = kind_named(alloc, keeper, name)?;
    let unknown = unknown_name(kind.is_some(), name);
    let shaped = are_optimize_args(args);
    let bad = is_bad_level(args);
    if let Some(fault) = index_call_fault(unknown, is_no_context(kind), shaped, bad) {
        return Ok(Plan::Refused(fault));
    }
    let Some(index) = name else {
        return Ok(Plan::Refused(Fault::BadValue));
    };
    let Some(level) = level_asked(args) else {
        return Ok(Plan::Refused(Fault::OutOfRange));
    };
    let batch = optimized(alloc, keeper, index, level)?;
    Ok(Plan::Done(batch))
}

/// CTX_DDL.OPTIMIZE_INDEX: FAST puts the rows of each term of a CONTEXT index as they would be, had all its rows been synchronised at once.
/// FULL also drops the documents that are rows of the table no more. FULL with a limit does so for that many terms, in the order of
/// their keys, behind the place where the last such call stopped; the place is kept in the index's entry. No reply tells how far it came.
///
/// The first of these that holds: E11 where no index has the name; E27 where the index isn't of the kind CONTEXT; E13 where the arguments
/// are neither two texts nor, with another level than FAST, two texts and a number; E30 where the level is neither FAST nor FULL, or the
/// first argument spells no name; E22 where the limit isn't from 1 to 1,000,000. Its cost is that of reading the rows of the terms that it
/// handles, and for FULL a look-up for each of their documents; in memory it holds what it puts.
pub fn optimize_index<K: Keeper>(
    alloc: Global,
    keeper: &mut K,
    args: &[Arg],
) -> Result<Vec<u8>, KeepFault>
    requires { AcceptsStatements (K.view keeper.old) }
    ensures { Replies K.view keeper.old keeper.new result (λ m. optimize_effect m args.now) (Some (line_for_all call_done)) }
{
    let name = name_at(alloc, args, 0)?;
    match optimize_plan(alloc, keeper, &name, args) {
        Ok(plan) => carry_out(
            alloc,
            keeper,
            plan,
            b"PL/SQL procedure successfully completed.\n",
        ),
        Err(fault) => Err(fault),
    }
}
