//! Noting changes of rows in rule indexes.
#![tactic(auto, using(ct_keep::specs::laws::Composing::reads_on, ct_keep::specs::laws::Composing::reads_short))]

ghost use Rattle.std.specs.Prelude.{◌≡◌, None, OnErr, OnOk};
ghost use Rattle.ct_keep.specs.KeeperViews.{OnlyReads};
ghost use Rattle.ct_keep.specs.Looks.{look, LooksAtMost};
ghost use Rattle.ct_entry.specs.declared.kinds.Kind.TheVariants as kind;
ghost use Rattle.ct_entry.specs.Keys.{at, key, bytes, row_part};
ghost use Rattle.ct_entry.specs.Removals.{OnlyRemoves};
ghost use Rattle.ix_docmap.specs.Changes.{queue_changes};
ghost use Rattle.rule_index.specs.Changes.{Adds, gone_changes, set_changes};
ghost use Rattle.rule_index.specs.Sees.{AddsFor};
ghost use Rattle.rule_index.specs.Shapes.{KeepsShape};
ghost use Rattle.rule_index.specs.Spelling.{anchors_at};

use crate::entries::rule_query;
use crate::filing::put_loss;
use crate::rules::Rules;
use ct_base::{Memory, Name, RowKey};
use ct_keep::{Batch, KeepFault, Keeper};
use ix_docmap::{queue, unqueue};
use std::alloc::Global;

impl Rules {
    /// Adds the change that a row waits for the next synchronisation of an index.
    ///
    /// It makes no look-up, and fails only for want of memory. The batch is unchanged then.
    pub fn note_insert(
        alloc: Global,
        batch: &mut Batch,
        index: &Name,
        row: RowKey,
    ) -> Result<(), Memory>
        ensures changes { Adds batch.old batch.new result (queue_changes index.now row.0) }
        ensures err { OnErr result (batch.new ≡ batch.old) }
        ensures shaped { KeepsShape batch.old batch.new result }
    {
        // Read so that the proof knows that it is a name.
        let _named = index.as_str();
        queue(alloc, batch, index, row)
    }

    /// Adds the changes by which a row of which the column is set waits for the next synchronisation of an index: what became of its
    /// rule is lost.
    ///
    /// It takes one look-up, of the rule's query. Memory and Disk are the only errors, and the batch is unchanged at both.
    pub fn note_update<K: Keeper>(
        alloc: Global,
        keeper: &mut K,
        batch: &mut Batch,
        index: &Name,
        row: RowKey,
    ) -> Result<(), KeepFault>
        requires { (K.view keeper.old).ready }
        ensures changes { AddsFor K.view keeper.old index.now batch.old batch.new result (λ m t x. set_changes index.now row.0 (anchors_at (at m) index.now row.0)) }
        ensures err { OnErr result (batch.new ≡ batch.old) }
        ensures shaped { KeepsShape batch.old batch.new result }
        ensures reads { OnlyReads K.view keeper.old keeper.new result }
        ensures at_most { LooksAtMost K.view keeper.old keeper.new (look (bytes (key kind.Rules index.now (row_part row.0))) None) }
    {
        // Read so that the proof knows that it is a name.
        let _named = index.as_str();
        let query = rule_query(alloc, keeper, index, row)?;
        let mut changes = Batch::new(alloc);
        put_loss(alloc, &mut changes, index, row, &query)?;
        queue(alloc, &mut changes, index, row)?;
        batch.append(changes)?;
        Ok(())
    }

    /// Adds the changes by which a row goes from an index.
    ///
    /// It takes one look-up, of the rule's query. Memory and Disk are the only errors, and the batch is unchanged at both.
    pub fn note_delete<K: Keeper>(
        alloc: Global,
        keeper: &mut K,
        batch: &mut Batch,
        index: &Name,
        row: RowKey,
    ) -> Result<(), KeepFault>
        requires { (K.view keeper.old).ready }
        ensures changes { AddsFor K.view keeper.old index.now batch.old batch.new result (λ m t x. gone_changes index.now row.0 (anchors_at (at m) index.now row.0)) }
        ensures err { OnErr result (batch.new ≡ batch.old) }
        ensures removes { OnOk result (OnlyRemoves batch.old batch.new) }
        ensures shaped { KeepsShape batch.old batch.new result }
        ensures reads { OnlyReads K.view keeper.old keeper.new result }
        ensures at_most { LooksAtMost K.view keeper.old keeper.new (look (bytes (key kind.Rules index.now (row_part row.0))) None) }
    {
        // Read so that the proof knows that it is a name.
        let _named = index.as_str();
        let query = rule_query(alloc, keeper, index, row)?;
        let mut changes = Batch::new(alloc);
        put_loss(alloc, &mut changes, index, row, &query)?;
        unqueue(alloc, &mut changes, index, row)?;
        batch.append(changes)?;
        Ok(())
    }
}
