//! Synchronising rule indexes.
#![tactic(auto, using(ct_keep::specs::laws::Composing::reads_on, ct_keep::specs::laws::Composing::reads_short))]

ghost use Rattle.std.specs.Prelude.{◌≡◌, OnErr};
ghost use Rattle.ct_keep.specs.KeeperViews.{OnlyReads};
ghost use Rattle.q_reduce.specs.Results.{named_pairs};
ghost use Rattle.rule_index.specs.Kind.{sync_changes};
ghost use Rattle.rule_index.specs.Sees.{AddsFor, AddsBy, row_comes, row_settles, rows_settle};
ghost use Rattle.rule_index.specs.Shapes.{KeepsShape};

use crate::entries::read_rules;
use crate::filing::put_outcome;
use crate::outcomes::seen_outcome;
use crate::rules::Rules;
use ct_base::{Name, RowKey};
use ct_keep::{Batch, KeepFault, Keeper};
use ix_docmap::{pending, unqueue};
use q_reduce::NamedThesaurus;
use std::alloc::Global;
use tb_table::{Target, text_of};
use tx_settings::Prefs;

/// Adds the changes of what becomes of a row in an index on this target with these preferences, by these thesauri. At an error some of
/// them may be there.
pub(crate) fn put_row<K: Keeper>(
    alloc: Global,
    keeper: &mut K,
    changes: &mut Batch,
    index: &Name,
    target: &Target,
    prefs: &Prefs,
    thesauri: &[NamedThesaurus],
    row: RowKey,
) -> Result<(), KeepFault>
    requires { (K.view keeper.old).ready }
    ensures changes { AddsBy K.view keeper.old changes.old changes.new result (row_comes index.now (named_pairs thesauri.now) target.now prefs.now row.0) }
    ensures shaped { KeepsShape changes.old changes.new result }
    ensures reads { OnlyReads K.view keeper.old keeper.new result }
{
    let text = text_of(alloc, keeper, &target.table, target.column, row)?;
    let kept = seen_outcome(alloc, prefs, thesauri, &text)?;
    put_outcome(alloc, changes, index, row, kept)?;
    Ok(())
}

/// Adds the changes by which a row that waits is settled. At an error some of them may be there.
fn settle_row<K: Keeper>(
    alloc: Global,
    keeper: &mut K,
    changes: &mut Batch,
    index: &Name,
    target: &Target,
    prefs: &Prefs,
    thesauri: &[NamedThesaurus],
    row: RowKey,
) -> Result<(), KeepFault>
    requires { (K.view keeper.old).ready }
    ensures changes { AddsBy K.view keeper.old changes.old changes.new result (row_settles index.now (named_pairs thesauri.now) target.now prefs.now row.0) }
    ensures shaped { KeepsShape changes.old changes.new result }
    ensures reads { OnlyReads K.view keeper.old keeper.new result }
{
    unqueue(alloc, changes, index, row)?;
    put_row(alloc, keeper, changes, index, target, prefs, thesauri, row)
}

/// Adds the changes by which rows that wait are settled. At an error some of them may be there.
fn settle_rows<K: Keeper>(
    alloc: Global,
    keeper: &mut K,
    changes: &mut Batch,
    index: &Name,
    target: &Target,
    prefs: &Prefs,
    thesauri: &[NamedThesaurus],
    rows: &[RowKey],
) -> Result<(), KeepFault>
    requires { (K.view keeper.old).ready }
    ensures changes { AddsBy K.view keeper.old changes.old changes.new result (rows_settle index.now (named_pairs thesauri.now) target.now prefs.now rows.now) }
    ensures shaped { KeepsShape changes.old changes.new result }
    ensures reads { OnlyReads K.view keeper.old keeper.new result }
{
    let mut rest = rows;
    'each: while let Some((row, later)) = rest.split_first() {
        settle_row(alloc, keeper, changes, index, target, prefs, thesauri, *row)?;
        rest = later;
    }
    Ok(())
}

impl Rules {
    /// Adds the changes by which each row that waits is settled: its text is read as a query and reduced by the preferences of the index
    /// and these thesauri, and its query is stored and filed under its anchors; or the rule is faulty, and the text of its fault is
    /// stored. Nothing where no row waits, and where there is no such index.
    ///
    /// The thesauri are those that a rule may name. It costs what reading and reducing the texts does, and holds one of them. Memory and
    /// Disk are the only errors, and the batch is unchanged at both.
    pub fn sync<K: Keeper>(
        alloc: Global,
        keeper: &mut K,
        batch: &mut Batch,
        index: &Name,
        thesauri: &[NamedThesaurus],
    ) -> Result<(), KeepFault>
        requires { (K.view keeper.old).ready }
        ensures changes { AddsFor K.view keeper.old index.now batch.old batch.new result (λ m t x. sync_changes (named_pairs thesauri.now) t index.now x) }
        ensures err { OnErr result (batch.new ≡ batch.old) }
        ensures shaped { KeepsShape batch.old batch.new result }
        ensures reads { OnlyReads K.view keeper.old keeper.new result }
    {
        let Some(entry) = read_rules(alloc, keeper, index)? else {
            return Ok(());
        };
        let rows = pending(alloc, keeper, index)?;
        let mut changes = Batch::new(alloc);
        let target = &entry.target;
        let prefs = &entry.prefs;
        let keys = rows.as_slice();
        settle_rows(
            alloc,
            keeper,
            &mut changes,
            index,
            target,
            prefs,
            thesauri,
            keys,
        )?;
        batch.append(changes)?;
        Ok(())
    }
}
