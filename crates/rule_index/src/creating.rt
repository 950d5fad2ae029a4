//! New rule indexes.
#![tactic(auto, using(ct_keep::specs::laws::Composing::reads_on, ct_keep::specs::laws::Composing::reads_short))]

ghost use Rattle.std.specs.Prelude.{◌≡◌, OnErr, true};
ghost use Rattle.ct_keep.specs.KeeperViews.{OnlyReads};
ghost use Rattle.tx_settings.specs.Attributes.{can_be_set};
ghost use Rattle.q_reduce.specs.Results.{named_pairs};
ghost use Rattle.rule_index.specs.Kind.{create_in};
ghost use Rattle.rule_index.specs.Sees.{AddsBy, rows_come};
ghost use Rattle.rule_index.specs.Shapes.{KeepsShape};

use crate::entries::put_rules;
use crate::rules::Rules;
use crate::syncing::put_row;
use ct_base::{Name, RowKey};
use ct_entry::{Kind, row_keys};
use ct_keep::{Batch, KeepFault, Keeper};
use q_reduce::NamedThesaurus;
use std::alloc::Global;
use tb_table::Target;
use tx_settings::Prefs;

/// Adds the changes of what becomes of rows. At an error some of them may be there.
fn put_rows<K: Keeper>(
    alloc: Global,
    keeper: &mut K,
    changes: &mut Batch,
    index: &Name,
    target: &Target,
    prefs: &Prefs,
    thesauri: &[NamedThesaurus],
    rows: &[RowKey],
) -> Result<(), KeepFault>
    requires { (K.view keeper.old).ready }
    ensures changes { AddsBy K.view keeper.old changes.old changes.new result (rows_come index.now (named_pairs thesauri.now) target.now prefs.now rows.now) }
    ensures shaped { KeepsShape changes.old changes.new result }
    ensures reads { OnlyReads K.view keeper.old keeper.new result }
{
    let mut rest = rows;
    'each: while let Some((row, later)) = rest.split_first() {
        put_row(alloc, keeper, changes, index, target, prefs, thesauri, *row)?;
        rest = later;
    }
    Ok(())
}

impl Rules {
    /// Adds the changes of a new index on a target with these preferences: each row of the table is settled, by these thesauri.
    ///
    /// The thesauri are those that a rule may name. It costs what reading and reducing the texts of the rows does, and holds one of
    /// them. Memory and Disk are the only errors, and the batch is unchanged at both.
    pub fn create<K: Keeper>(
        alloc: Global,
        keeper: &mut K,
        batch: &mut Batch,
        index: &Name,
        target: &Target,
        prefs: &Prefs,
        thesauri: &[NamedThesaurus],
    ) -> Result<(), KeepFault>
        requires ready { (K.view keeper.old).ready }
        requires set { can_be_set prefs.now.lexer ≡ true }
        ensures changes { AddsBy K.view keeper.old batch.old batch.new result (create_in index.now (named_pairs thesauri.now) target.now prefs.now) }
        ensures err { OnErr result (batch.new ≡ batch.old) }
        ensures shaped { KeepsShape batch.old batch.new result }
        ensures reads { OnlyReads K.view keeper.old keeper.new result }
    {
        let rows = row_keys(alloc, keeper, Kind::RowNumbers, &target.table)?;
        let mut changes = Batch::new(alloc);
        put_rules(alloc, &mut changes, index, target, prefs)?;
        let keys = rows.as_slice();
        put_rows(
            alloc,
            keeper,
            &mut changes,
            index,
            target,
            prefs,
            thesauri,
            keys,
        )?;
        batch.append(changes)?;
        Ok(())
    }
}
