//! CTX_THES.CREATE_THESAURUS.
#![tactic(auto, using(ct_keep::specs::laws::Composing::reads_on, ct_keep::specs::laws::Composing::reads_short))]

ghost use Rattle.std.specs.Prelude.{◌≡◌, IfOk, None};
ghost use Rattle.std.specs.FinMap.{get};
ghost use Rattle.ct_keep.specs.KeeperViews.{OnlyReads};
ghost use Rattle.ct_entry.specs.Changes.{spell};
ghost use Rattle.ct_entry.specs.Shapes.{AreShaped};
ghost use Rattle.th_store.specs.Sees.{is_at_thesaurus_limit};
ghost use Rattle.th_store.specs.Shapes.{HasThesaurusValue};
ghost use Rattle.th_store.specs.Spelling.{thesaurus_changes};
ghost use Rattle.db_state.specs.Lines.{call_done};
ghost use Rattle.db_state.specs.Plans.{IsStorePlan, Plans, PlansWhere};
ghost use Rattle.db_thes.specs.Creating.{are_create_args, create_thesaurus, created, is_case_asked as case_asked};

use crate::lookups::{are_most, is_there};
use ct_base::{Memory, Name};
use ct_keep::{Batch, KeepFault, Keeper};
use db_call::{first_fault, taken_name};
use db_cond::Fault;
use db_state::Plan;
use st_parse::Arg;
use std::alloc::Global;
use th_store::create;

/// Whether the arguments are a name, and whether case counts, which may be left out.
fn are_create_args(args: &[Arg]) -> bool
    ensures { result ≡ are_create_args args.now }
{
    matches!(args, [Arg::Text(_)] | [Arg::Text(_), Arg::Flag(_)])
}

/// Whether the second argument is TRUE.
fn is_case_asked(args: &[Arg]) -> bool
    ensures { result ≡ case_asked args.now }
{
    match args {
        [_, Arg::Flag(flag), ..] => *flag,
        _ => false,
    }
}

/// The batch that makes a thesaurus of this name.
fn new_batch(alloc: Global, name: &Name) -> Result<Batch, Memory>
    ensures changes { IfOk result (λ batch. batch ≡ spell (thesaurus_changes name.now)) }
    ensures shaped { IfOk result (AreShaped HasThesaurusValue) }
{
    let mut batch = Batch::new(alloc);
    create(alloc, &mut batch, name)?;
    Ok(batch)
}

/// What a new thesaurus of this name comes to, where no check so far has failed.
fn new_plan<'a>(alloc: Global, name: &Name, most: bool) -> Result<Plan<'a>, Memory>
    ensures plan { PlansWhere result (λ m. (most ≡ is_at_thesaurus_limit m.thesauri) × (get m.thesauri name.now ≡ None)) (λ m. created m name.now) }
    ensures entries { IfOk result IsStorePlan }
{
    let _named = name.as_str();
    if most {
        return Ok(Plan::Refused(Fault::LimitReached));
    }
    let batch = new_batch(alloc, name)?;
    Ok(Plan::Done(batch))
}

/// The plan of CTX_THES.CREATE_THESAURUS: a refusal, or the batch that makes the thesaurus.
pub(crate) fn create_plan<'a, K: Keeper>(
    alloc: Global,
    keeper: &mut K,
    name: &'a Option<Name>,
    args: &[Arg],
) -> Result<Plan<'a>, KeepFault>
    requires { (K.view keeper.old).ready }
    ensures plan { Plans K.view keeper.old result (λ m. create_thesaurus m name.now args.now) call_done }
    ensures entries { IfOk result IsStorePlan }
    ensures reads { OnlyReads K.view keeper.old keeper.new result }
{
    let there = is_there(alloc, keeper, name)?;
    let most = are_most(alloc, keeper)?;
    let taken = taken_name(there, name);
    if let Some(fault) = first_fault(None, taken, are_create_args(args)) {
        return Ok(Plan::Refused(fault));
    }
    if is_case_asked(args) {
        return Ok(Plan::Refused(Fault::BadValue));
    }
    let Some(name) = name else {
        return Ok(Plan::Refused(Fault::BadValue));
    };
    let plan = new_plan(alloc, name, most)?;
    Ok(plan)
}
