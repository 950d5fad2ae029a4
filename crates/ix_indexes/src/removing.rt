//! The removal of an index, whatever its kind.
#![tactic(auto, using(ct_keep::specs::laws::Composing::reads_on, ct_keep::specs::laws::Composing::reads_short))]

ghost use Rattle.std.specs.Prelude.{◌≡◌, OnOk, OnErr};
ghost use Rattle.ct_keep.specs.KeeperViews.{OnlyReads, Told};
ghost use Rattle.ct_entry.specs.Removals.{OnlyRemoves};
ghost use Rattle.ix_context.specs.Changes.{Adds};
ghost use Rattle.ix_indexes.specs.Removing.{kind_removals, index_removals};

use ct_base::Name;
use ct_entry::{Kind, remove_entries};
use ct_keep::{Batch, KeepFault, Keeper};
use std::alloc::Global;

/// The kinds of the entries that an index can have.
const INDEX_KINDS: [Kind; 10] = [
    Kind::Indexes,
    Kind::DocumentRows,
    Kind::RowDocuments,
    Kind::Pending,
    Kind::Postings,
    Kind::Spans,
    Kind::Catalogue,
    Kind::Rules,
    Kind::Anchors,
    Kind::RuleFaults,
];

/// Adds the removal of all of an index's entries of these kinds, kind by kind.
fn remove_kinds<K: Keeper>(
    alloc: Global,
    keeper: &mut K,
    changes: &mut Batch,
    index: &Name,
    kinds: &[Kind],
) -> Result<(), KeepFault>
    requires { (K.view keeper.old).ready }
    ensures changes { Told K.view keeper.old (λ m. Adds changes.old changes.new result (kind_removals index.now m kinds.now)) }
    ensures removes { OnOk result (OnlyRemoves changes.old changes.new) }
    ensures reads { OnlyReads K.view keeper.old keeper.new result }
{
    for kind in kinds {
        remove_entries(alloc, keeper, changes, *kind, index)?;
    }
    Ok(())
}

/// Adds the removal of an index: of all its entries. It doesn't matter whether the index is there, and of which kind it is. The
/// batch is unchanged where the call fails.
///
/// It takes a look-up for each of its entries, and twenty more at the most. No value is held longer than its look-up. It never
/// answers Full.
pub fn remove<K: Keeper>(
    alloc: Global,
    keeper: &mut K,
    batch: &mut Batch,
    index: &Name,
) -> Result<(), KeepFault>
    requires { (K.view keeper.old).ready }
    ensures changes { Told K.view keeper.old (λ m. Adds batch.old batch.new result (index_removals index.now m)) }
    ensures err { OnErr result (batch.new ≡ batch.old) }
    ensures removes { OnOk result (OnlyRemoves batch.old batch.new) }
    ensures reads { OnlyReads K.view keeper.old keeper.new result }
{
    let mut changes = Batch::new(alloc);
    remove_kinds(alloc, keeper, &mut changes, index, &INDEX_KINDS)?;
    batch.append(changes)?;
    Ok(())
}
