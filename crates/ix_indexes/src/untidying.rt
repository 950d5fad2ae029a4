//! What is put of the indexes on a table before the first of its rows is lost.
#![tactic(auto, using(ct_keep::specs::laws::Composing::reads_on, ct_keep::specs::laws::Composing::reads_short))]

ghost use Rattle.std.specs.Prelude.{◌≤◌, [], IfOk};
ghost use Rattle.ct_keep.specs.Content.{after, weight};
ghost use Rattle.ct_keep.specs.KeeperViews.{Finds, OnlyReads};
ghost use Rattle.ct_keep.specs.Looks.{LooksAtMost, no_looks};
ghost use Rattle.ct_entry.specs.Keys.{at};
ghost use Rattle.ct_entry.specs.Shapes.{AreShaped};
ghost use Rattle.ix_context.specs.Shapes.{HasContextValue};
ghost use Rattle.ix_context.specs.Untidying.{AddsAsLong};
ghost use Rattle.ix_indexes.specs.Noting.{UntidiesContext, UntidiesNoted, UntidyNoted, noted_index, noted_indexes};
ghost use Rattle.ix_indexes.specs.Shapes.{HasIndexValue};

use crate::loading::{Noting, TableIndex};
use ct_base::Name;
use ct_keep::{Batch, KeepFault, Keeper};
use ix_context::untidy;
use std::alloc::Global;

/// The change by which a CONTEXT index is tidy no more.
fn context_untidying<K: Keeper>(
    alloc: Global,
    keeper: &mut K,
    index: &Name,
) -> Result<Batch, KeepFault>
    requires { (K.view keeper.old).ready }
    ensures changes { Finds K.view keeper.old result (UntidiesContext index.now) }
    ensures as_long { Finds K.view keeper.old result (λ m notes. AddsAsLong (at m) [] notes) }
    ensures shaped { IfOk result (AreShaped HasContextValue) }
    ensures reads { OnlyReads K.view keeper.old keeper.new result }
    ensures at_most { LooksAtMost K.view keeper.old keeper.new no_looks }
{
    let mut notes = Batch::new(alloc);
    untidy(alloc, keeper, &mut notes, index)?;
    Ok(notes)
}

/// The change by which an index is tidy no more: a catalogue and a rule index never are.
fn index_untidying<K: Keeper>(
    alloc: Global,
    keeper: &mut K,
    index: &TableIndex,
) -> Result<Batch, KeepFault>
    requires { (K.view keeper.old).ready }
    ensures changes { Finds K.view keeper.old result (UntidiesNoted (noted_index index.now)) }
    ensures as_long { Finds K.view keeper.old result (λ m notes. AddsAsLong (at m) [] notes) }
    ensures shaped { IfOk result (AreShaped HasIndexValue) }
    ensures reads { OnlyReads K.view keeper.old keeper.new result }
    ensures at_most { LooksAtMost K.view keeper.old keeper.new no_looks }
{
    match &index.noting {
        Noting::InContext(_) => context_untidying(alloc, keeper, &index.name),
        Noting::InCatalogue(_, _) => Ok(Batch::new(alloc)),
        Noting::InRules(_) => Ok(Batch::new(alloc)),
    }
}

/// The changes by which each of these indexes is tidy no more. They come once, before those of the first row that changes or goes.
///
/// Each CONTEXT index takes one look-up, of its entry; no text, no posting and no rule is looked up. Each value has as many bytes as the one that it
/// replaces. It never answers Full.
pub fn untidy_notes<K: Keeper>(
    alloc: Global,
    keeper: &mut K,
    indexes: &[TableIndex],
) -> Result<Batch, KeepFault>
    requires { (K.view keeper.old).ready }
    ensures changes { Finds K.view keeper.old result (UntidyNoted (noted_indexes indexes.now)) }
    ensures light { Finds K.view keeper.old result (λ m notes. weight (after notes m) ≤ weight m) }
    ensures shaped { IfOk result (AreShaped HasIndexValue) }
    ensures reads { OnlyReads K.view keeper.old keeper.new result }
    ensures at_most { LooksAtMost K.view keeper.old keeper.new no_looks }
{
    let mut notes = Batch::new(alloc);
    let mut rest = indexes;
    'each: while let Some((index, later)) = rest.split_first() {
        let changes = index_untidying(alloc, keeper, index)?;
        notes.append(changes)?;
        rest = later;
    }
    Ok(notes)
}
