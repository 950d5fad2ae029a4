//! DROP INDEX.
#![tactic(auto, using(ct_keep::specs::laws::Composing::reads_on, ct_keep::specs::laws::Composing::reads_short, ct_keep::specs::laws::Composing::accepts_on))]

ghost use Rattle.std.specs.Prelude.{◌≡◌, IfOk, Some, Err};
ghost use Rattle.ct_keep.specs.Content.{changes_weight};
ghost use Rattle.ct_keep.specs.KeeperViews.{Finds, OnlyReads, Told};
ghost use Rattle.ct_entry.specs.Changes.{spell};
ghost use Rattle.db_state.specs.Plans.{IsRemoval, IsStorePlan, Plans, Replies, line_for_all};
ghost use Rattle.db_state.specs.Shapes.{AcceptsStatements, AreStoreChanges};
ghost use Rattle.db_index.specs.Dropping.{drop_index as drop_index_effect, index_dropped};
ghost use Rattle.ix_indexes.specs.Removing.{index_removals};

use ct_base::Name;
use ct_keep::{Batch, KeepFault, Keeper};
use db_cond::Fault;
use db_state::{Plan, carry_out, has_index};
use ix_indexes::remove;
use std::alloc::Global;

/// The changes by which an index goes.
fn dropped<K: Keeper>(alloc: Global, keeper: &mut K, index: &Name) -> Result<Batch, KeepFault>
    requires { (K.view keeper.old).ready }
    ensures changes { Finds K.view keeper.old result (λ m batch. batch ≡ spell (index_removals index.now m)) }
    ensures light { IfOk result (λ batch. changes_weight batch ≡ 0) }
    ensures entries { IfOk result AreStoreChanges }
    ensures reads { OnlyReads K.view keeper.old keeper.new result }
{
    let mut batch = Batch::new(alloc);
    remove(alloc, keeper, &mut batch, index)?;
    Ok(batch)
}

/// What DROP INDEX comes to.
fn drop_plan<'a, K: Keeper>(
    alloc: Global,
    keeper: &mut K,
    index: &'a Name,
) -> Result<Plan<'a>, KeepFault>
    requires { (K.view keeper.old).ready }
    ensures plan { Plans K.view keeper.old result (λ m. drop_index_effect m index.now) index_dropped }
    ensures light { IfOk result IsRemoval }
    ensures entries { IfOk result IsStorePlan }
    ensures reads { OnlyReads K.view keeper.old keeper.new result }
{
    let there = has_index(alloc, keeper, index)?;
    if !there {
        return Ok(Plan::Refused(Fault::UnknownName(index.as_str())));
    }
    let batch = dropped(alloc, keeper, index)?;
    Ok(Plan::Done(batch))
}

/// DROP INDEX: the index goes with all its entries. E11 where there is no index of the name. There is always room for it.
///
/// Its cost is the number of the index's entries, times a logarithm.
pub fn drop_index<K: Keeper>(
    alloc: Global,
    keeper: &mut K,
    index: &Name,
) -> Result<Vec<u8>, KeepFault>
    requires { AcceptsStatements (K.view keeper.old) }
    ensures done { Replies K.view keeper.old keeper.new result (λ m. drop_index_effect m index.now) (Some (line_for_all index_dropped)) }
    ensures never_full { Told K.view keeper.old (λ m. result ≡ Err KeepFault.Full → ⊥) }
{
    match drop_plan(alloc, keeper, index) {
        Ok(plan) => carry_out(alloc, keeper, plan, b"Index dropped.\n"),
        Err(fault) => Err(fault),
    }
}
