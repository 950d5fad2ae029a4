//! What an index is on, by its name.
#![tactic(auto, using(ct_keep::specs::laws::Composing::reads_short))]

ghost use Rattle.std.specs.Prelude.{◌≡◌, IfOk, OnOk, Some, None, Err, []};
ghost use Rattle.ct_keep.specs.Content.{Content};
ghost use Rattle.ct_keep.specs.KeeperViews.{Finds, OnlyReads};
ghost use Rattle.ct_keep.specs.Looks.{look, LooksAtMost};
ghost use Rattle.ct_entry.specs.declared.kinds.Kind.TheVariants as entry;
ghost use Rattle.ct_entry.specs.Keys.{key, bytes, at};
ghost use Rattle.db_names.specs.Heads.{SpellsHead};

use crate::heads::IndexHead;
use crate::reading::read_head;
use ct_base::Name;
use ct_entry::{Kind, fetch_entry};
use ct_keep::{KeepFault, Keeper};
use std::alloc::Global;

/// The kind of an index and what it is on. None where there is no such index, or its entry begins with no head.
///
/// It takes one look-up, and never answers Full.
pub fn index_of<K: Keeper>(
    alloc: Global,
    keeper: &mut K,
    index: &Name,
) -> Result<Option<IndexHead>, KeepFault>
    requires { (K.view keeper.old).ready }
    ensures value { Finds K.view keeper.old result (λ m found. SpellsHead (at m (key entry.Indexes index.now [])) found) }
    ensures reads { OnlyReads K.view keeper.old keeper.new result }
    ensures at_most { LooksAtMost K.view keeper.old keeper.new (look (bytes (key entry.Indexes index.now [])) None) }
{
    let Some(value) = fetch_entry(alloc, keeper, Kind::Indexes, index, &[])? else {
        return Ok(None);
    };
    let head = read_head(alloc, &value)?;
    Ok(head)
}
