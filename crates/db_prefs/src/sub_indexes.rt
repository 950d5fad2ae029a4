//! CTX_DDL.ADD_INDEX.
#![tactic(auto, using(ct_keep::specs::laws::Composing::reads_on, ct_keep::specs::laws::Composing::reads_short))]

ghost use Rattle.std.specs.Prelude.{◌≡◌, IfOk, Some};
ghost use Rattle.std.specs.FinMap.{get};
ghost use Rattle.std.specs.Option.{option_map};
ghost use Rattle.ct_keep.specs.KeeperViews.{OnlyReads};
ghost use Rattle.db_state.specs.Lines.{call_done};
ghost use Rattle.db_state.specs.Plans.{IsStorePlan, Plans, PlansWhere};
ghost use Rattle.db_prefs.specs.Defining.{add_sub_index, columns_told as columns_in, sub_index_added};

use crate::lookups::set_of;
use ct_base::{Listed, Memory, Name};
use ct_keep::{KeepFault, Keeper};
use db_call::{are_texts, first_fault, missing_name, text_at};
use db_cond::Fault;
use db_state::Plan;
use st_parse::Arg;
use std::alloc::Global;
use tx_prefs::set_changes;
use tx_sets::{SubIndex, are_sub_indexes, keep_names, read_columns};

/// The columns that a text tells; None where there is no text, or it isn't of their form.
fn columns_told(alloc: Global, text: Option<&str>) -> Result<Option<Vec<Name>>, Memory>
    ensures { IfOk result (λ found. option_map (λ v. v.items) found ≡ columns_in (option_map (λ t. t.now) text.entry)) }
{
    match text {
        Some(text) => read_columns(alloc, text),
        None => Ok(None),
    }
}

/// What a sub-index that is added comes to, of an index set that is there with these sub-indexes.
fn added_plan<'a>(
    alloc: Global,
    name: &Name,
    set: Vec<SubIndex>,
    columns: Vec<Name>,
) -> Result<Plan<'a>, Memory>
    ensures plan { PlansWhere result (λ m. get m.preferences.sets name.now ≡ Some set.items) (λ m. sub_index_added columns.items m name.now set.items) }
    ensures entries { IfOk result IsStorePlan }
{
    let mut set = set;
    set.push(Listed::of(columns))?;
    let all = set.as_slice();
    if !are_sub_indexes(all) {
        return Ok(Plan::Refused(Fault::LimitReached));
    }
    keep_names(all);
    let batch = set_changes(alloc, name, all)?;
    Ok(Plan::Done(batch))
}

/// The plan of CTX_DDL.ADD_INDEX: a refusal, or the batch that adds the sub-index to the index set of this name.
pub(crate) fn sub_index_plan<'a, K: Keeper>(
    alloc: Global,
    keeper: &mut K,
    name: &'a Option<Name>,
    args: &[Arg],
) -> Result<Plan<'a>, KeepFault>
    requires { (K.view keeper.old).ready }
    ensures plan { Plans K.view keeper.old result (λ m. add_sub_index m name.now args.now) call_done }
    ensures entries { IfOk result IsStorePlan }
    ensures reads { OnlyReads K.view keeper.old keeper.new result }
{
    let found = set_of(alloc, keeper, name)?;
    let unknown = missing_name(found.is_some(), name);
    let taken: Option<&'a str> = None;
    if let Some(fault) = first_fault(unknown, taken, are_texts(args, 2)) {
        return Ok(Plan::Refused(fault));
    }
    let Some(columns) = columns_told(alloc, text_at(args, 1))? else {
        return Ok(Plan::Refused(Fault::BadValue));
    };
    let Some(name) = name else {
        return Ok(Plan::Refused(Fault::BadValue));
    };
    let Some(set) = found else {
        return Ok(Plan::Refused(Fault::BadValue));
    };
    let plan = added_plan(alloc, name, set, columns)?;
    Ok(plan)
}
