//! DROP TABLE.
#![tactic(auto, using(ct_keep::specs::laws::Composing::reads_on, ct_keep::specs::laws::Composing::reads_short, ct_keep::specs::laws::Composing::accepts_on))]

ghost use Rattle.std.specs.Prelude.{◌≡◌, IfOk, OnOk, Some, Err, map};
ghost use Rattle.ct_keep.specs.Content.{changes_weight};
ghost use Rattle.ct_keep.specs.KeeperViews.{OnlyReads, Told};
ghost use Rattle.ct_entry.specs.Removals.{OnlyRemoves};
ghost use Rattle.ix_context.specs.Changes.{Adds};
ghost use Rattle.db_state.specs.States.{OverStates};
ghost use Rattle.db_state.specs.Plans.{IsRemoval, IsStorePlan, Plans, Replies, line_for_all};
ghost use Rattle.db_state.specs.Shapes.{AcceptsStatements, AreStoreChanges};
ghost use Rattle.db_change.specs.Dropping.{DropsTable, drop_table as drop_table_effect, table_dropped};
ghost use Rattle.ix_indexes.specs.Removing.{remove_all_changes};

use ct_base::Name;
use ct_keep::{Batch, KeepFault, Keeper};
use db_cond::Fault;
use db_names::{IndexHead, indexes_of};
use db_state::{Plan, carry_out, has_table};
use std::alloc::Global;

/// Adds the removal of each of the indexes.
fn remove_indexes<K: Keeper>(
    alloc: Global,
    keeper: &mut K,
    batch: &mut Batch,
    indexes: &[(Name, IndexHead)],
) -> Result<(), KeepFault>
    requires { (K.view keeper.old).ready }
    ensures changes { Told K.view keeper.old (λ m. Adds batch.old batch.new result (remove_all_changes m (map (λ e. e.0) indexes.now))) }
    ensures removes { OnOk result (OnlyRemoves batch.old batch.new) }
    ensures reads { OnlyReads K.view keeper.old keeper.new result }
{
    for (index, _) in indexes {
        ix_indexes::remove(alloc, keeper, batch, index)?;
    }
    Ok(())
}

/// The changes by which a table goes, and with it each index on it.
fn dropped<K: Keeper>(alloc: Global, keeper: &mut K, table: &Name) -> Result<Batch, KeepFault>
    requires { (K.view keeper.old).ready }
    ensures changes { OverStates K.view keeper.old (λ m c. IfOk result (DropsTable m c table.now)) }
    ensures light { IfOk result (λ batch. changes_weight batch ≡ 0) }
    ensures entries { IfOk result AreStoreChanges }
    ensures reads { OnlyReads K.view keeper.old keeper.new result }
{
    let mut batch = Batch::new(alloc);
    tb_table::remove(alloc, keeper, &mut batch, table)?;
    let indexes = indexes_of(alloc, keeper, table)?;
    remove_indexes(alloc, keeper, &mut batch, &indexes)?;
    Ok(batch)
}

/// What DROP TABLE comes to.
fn drop_plan<'a, K: Keeper>(
    alloc: Global,
    keeper: &mut K,
    table: &'a Name,
) -> Result<Plan<'a>, KeepFault>
    requires { (K.view keeper.old).ready }
    ensures plan { Plans K.view keeper.old result (λ m. drop_table_effect m table.now) table_dropped }
    ensures light { IfOk result IsRemoval }
    ensures entries { IfOk result IsStorePlan }
    ensures reads { OnlyReads K.view keeper.old keeper.new result }
{
    let there = has_table(alloc, keeper, table)?;
    if !there {
        return Ok(Plan::Refused(Fault::UnknownName(table.as_str())));
    }
    let batch = dropped(alloc, keeper, table)?;
    Ok(Plan::Done(batch))
}

/// DROP TABLE: the table goes with its rows, and so do the indexes on it. E11 where there is no table of the name. There is
/// always room for it.
///
/// Its cost is the number of the entries of the table and of these indexes, times a logarithm, and a scan of the entries of all
/// indexes.
pub fn drop_table<K: Keeper>(
    alloc: Global,
    keeper: &mut K,
    table: &Name,
) -> Result<Vec<u8>, KeepFault>
    requires { AcceptsStatements (K.view keeper.old) }
    ensures done { Replies K.view keeper.old keeper.new result (λ m. drop_table_effect m table.now) (Some (line_for_all table_dropped)) }
    ensures never_full { Told K.view keeper.old (λ m. result ≡ Err KeepFault.Full → ⊥) }
{
    match drop_plan(alloc, keeper, table) {
        Ok(plan) => carry_out(alloc, keeper, plan, b"Table dropped.\n"),
        Err(fault) => Err(fault),
    }
}
