//! CTX_THES.CREATE_RELATION.
#![tactic(auto, using(ct_keep::specs::laws::Composing::reads_on, ct_keep::specs::laws::Composing::reads_short))]

ghost use Rattle.std.specs.Prelude.{◌≡◌, IfOk};
ghost use Rattle.ct_keep.specs.KeeperViews.{OnlyReads};
ghost use Rattle.ct_entry.specs.Changes.{spell};
ghost use Rattle.ct_entry.specs.Shapes.{AreShaped};
ghost use Rattle.th_graph.specs.Pairs.{stated_pair};
ghost use Rattle.th_store.specs.Shapes.{HasThesaurusValue};
ghost use Rattle.th_store.specs.Spelling.{pair_changes};
ghost use Rattle.db_state.specs.Lines.{call_done};
ghost use Rattle.db_state.specs.Plans.{IsStorePlan, Plans};
ghost use Rattle.db_thes.specs.Relating.{PlansRelation, create_relation};

use crate::lookups::{is_known_in, is_there};
use crate::stating::{StatedRelation, taken_term};
use ct_base::{Memory, Name};
use ct_keep::{Batch, KeepFault, Keeper};
use db_call::{are_texts, first_fault, missing_name};
use db_cond::Fault;
use db_state::Plan;
use st_parse::Arg;
use std::alloc::Global;
use th_store::{is_at_pair_limit, relate};

/// The batch that adds the relation to the thesaurus of this name.
fn pair_batch(alloc: Global, name: &Name, stated: &StatedRelation) -> Result<Batch, Memory>
    ensures changes { IfOk result (λ batch. batch ≡ spell (pair_changes name.now (stated_pair stated.now.relation stated.now.first stated.now.second))) }
    ensures shaped { IfOk result (AreShaped HasThesaurusValue) }
{
    let mut batch = Batch::new(alloc);
    relate(
        alloc,
        &mut batch,
        name,
        &stated.first,
        stated.relation,
        &stated.second,
    )?;
    Ok(batch)
}

/// What a relation that isn't known comes to, in a thesaurus that is there. `full` tells whether this has as many pairs as it may have.
fn added_plan<'a>(
    alloc: Global,
    name: &Name,
    stated: &StatedRelation,
    full: bool,
) -> Result<Plan<'a>, Memory>
    ensures plan { PlansRelation result name.now stated.now full }
    ensures entries { IfOk result IsStorePlan }
{
    let _first = stated.first.as_str();
    let _second = stated.second.as_str();
    if full {
        return Ok(Plan::Refused(Fault::LimitReached));
    }
    let batch = pair_batch(alloc, name, stated)?;
    Ok(Plan::Done(batch))
}

/// The plan of CTX_THES.CREATE_RELATION: a refusal, or the batch that adds the relation that is stated. The thesaurus isn't loaded.
pub(crate) fn relate_plan<'a, K: Keeper>(
    alloc: Global,
    keeper: &mut K,
    name: &'a Option<Name>,
    stated: &'a Option<StatedRelation>,
    args: &[Arg],
) -> Result<Plan<'a>, KeepFault>
    requires { (K.view keeper.old).ready }
    ensures plan { Plans K.view keeper.old result (λ m. create_relation m name.now stated.now args.now) call_done }
    ensures entries { IfOk result IsStorePlan }
    ensures reads { OnlyReads K.view keeper.old keeper.new result }
{
    let there = is_there(alloc, keeper, name)?;
    let known = is_known_in(alloc, keeper, there, name, stated)?;
    let unknown = missing_name(there, name);
    let taken = taken_term(known, stated);
    if let Some(fault) = first_fault(unknown, taken, are_texts(args, 4)) {
        return Ok(Plan::Refused(fault));
    }
    let Some(stated) = stated else {
        return Ok(Plan::Refused(Fault::BadValue));
    };
    let Some(name) = name else {
        return Ok(Plan::Refused(Fault::BadValue));
    };
    let full = is_at_pair_limit(alloc, keeper, name)?;
    let plan = added_plan(alloc, name, stated, full)?;
    Ok(plan)
}
