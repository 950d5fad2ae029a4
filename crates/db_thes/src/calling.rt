//! The procedures by their names.
#![tactic(auto, using(ct_keep::specs::laws::Composing::reads_on, ct_keep::specs::laws::Composing::reads_short, ct_keep::specs::laws::Composing::accepts_on))]

ghost use Rattle.std.specs.Prelude.{◌≡◌, IfOk, Some};
ghost use Rattle.ct_keep.specs.KeeperViews.{OnlyReads};
ghost use Rattle.db_call.specs.Arguments.{argument_name as name_there};
ghost use Rattle.db_state.specs.Lines.{call_done};
ghost use Rattle.db_state.specs.Plans.{IsStorePlan, Plans, Replies, line_for_all};
ghost use Rattle.db_state.specs.Shapes.{AcceptsStatements};
ghost use Rattle.db_thes.specs.Calling.{call_by, call_thesaurus as call_effect};
ghost use Rattle.db_thes.specs.Stating.{stated as stated_relation};

use crate::creating::create_plan;
use crate::relating::relate_plan;
use crate::stating::{StatedRelation, stated};
use ct_base::{Memory, Name};
use ct_keep::{KeepFault, Keeper};
use db_call::name_at;
use db_state::{Plan, carry_out};
use st_parse::{Arg, ThesaurusCall};
use std::alloc::Global;

/// What a refusal may show.
#[derive(Drop)]
struct Shown {
    /// The name that the first argument spells.
    name: Option<Name>,
    /// What the arguments state, of which the first term may be shown.
    stated: Option<StatedRelation>,
}

/// What a refusal of a procedure with these arguments may show.
fn shown_by(alloc: Global, args: &[Arg]) -> Result<Shown, Memory>
    ensures name { IfOk result (λ shown. shown.name ≡ name_there 0 args.now) }
    ensures stated { IfOk result (λ shown. shown.stated ≡ stated_relation args.now) }
{
    let name = name_at(alloc, args, 0)?;
    let stated = stated(alloc, args)?;
    Ok(Shown { name, stated })
}

/// What a procedure comes to.
fn call_plan<'a, K: Keeper>(
    alloc: Global,
    keeper: &mut K,
    procedure: ThesaurusCall,
    shown: &'a Shown,
    args: &[Arg],
) -> Result<Plan<'a>, KeepFault>
    requires { (K.view keeper.old).ready }
    ensures plan { Plans K.view keeper.old result (λ m. call_by m procedure shown.now.name shown.now.stated args.now) call_done }
    ensures entries { IfOk result IsStorePlan }
    ensures reads { OnlyReads K.view keeper.old keeper.new result }
{
    let Shown { name, stated } = shown;
    match procedure {
        ThesaurusCall::CreateThesaurus => create_plan(alloc, keeper, name, args),
        ThesaurusCall::CreateRelation => relate_plan(alloc, keeper, name, stated, args),
    }
}

/// Carries out one of the two procedures of CTX_THES, by at most one commit.
///
/// It is refused, in this order, where the thesaurus of a relation is unknown; where the new thesaurus, or the relation, is there already;
/// where the arguments are too few, too many or of other kinds; where a name, a term or the word for the relation is bad, or case should
/// count; and where there would be more than 256 thesauri, or more than 10,000 pairs in one.
///
/// A new thesaurus costs a scan of the entries of all thesauri, without their pairs. A relation costs a few look-ups, however many pairs
/// the thesaurus has.
pub fn call_thesaurus<K: Keeper>(
    alloc: Global,
    keeper: &mut K,
    procedure: ThesaurusCall,
    args: &[Arg],
) -> Result<Vec<u8>, KeepFault>
    requires { AcceptsStatements (K.view keeper.old) }
    ensures { Replies K.view keeper.old keeper.new result (λ m. call_effect m procedure args.now) (Some (line_for_all call_done)) }
{
    let shown = shown_by(alloc, args)?;
    match call_plan(alloc, keeper, procedure, &shown, args) {
        Ok(plan) => carry_out(
            alloc,
            keeper,
            plan,
            b"PL/SQL procedure successfully completed.\n",
        ),
        Err(fault) => Err(fault),
    }
}
