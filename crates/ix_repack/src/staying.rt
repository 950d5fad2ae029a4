//! Which documents stay.
#![tactic(auto, using(ct_keep::specs::laws::Composing::reads_on, ct_keep::specs::laws::Composing::reads_short))]

ghost use Rattle.std.specs.Prelude.{◌≡◌};
ghost use Rattle.ct_keep.specs.KeeperViews.{Finds, OnlyReads};
ghost use Rattle.ix_repack.specs.Repacking.{stays};

use ct_base::{DocId, Name};
use ct_keep::{KeepFault, Keeper};
use ix_docmap::row_of;
use std::alloc::Global;

/// Whether a document of an index stays: each does, or each that is still a row of the table.
pub(crate) fn does_stay<K: Keeper>(
    alloc: Global,
    keeper: &mut K,
    index: &Name,
    mapped: bool,
    document: u32,
) -> Result<bool, KeepFault>
    requires { (K.view keeper.old).ready }
    ensures stays { Finds K.view keeper.old result (λ m stay. stay ≡ stays mapped m index.now document) }
    ensures reads { OnlyReads K.view keeper.old keeper.new result }
{
    if !mapped {
        return Ok(true);
    }
    let row = row_of(alloc, keeper, index, DocId(document))?;
    Ok(row.is_some())
}
