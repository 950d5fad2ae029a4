//! The removal of all entries of an owner.
#![tactic(auto, using(ct_keep::specs::laws::Composing::reads_on, ct_keep::specs::laws::Composing::reads_short))]

ghost use Rattle.std.specs.Prelude.{◌≡◌, ◌++◌, [], OnOk, OnErr, None};
ghost use Rattle.ct_keep.specs.KeeperViews.{OnlyReads, Told};
ghost use Rattle.ct_keep.specs.Looks.{look, scan_looks, LooksAtMost};
ghost use Rattle.ct_entry.specs.Keys.{key, bytes, at, prefix_of};
ghost use Rattle.ct_entry.specs.Changes.{spell};
ghost use Rattle.ct_entry.specs.Removals.{removal_at_owner, longer_rests, drop_rests, owned_removals, OnlyRemoves, removal_looks};

use crate::entries::{has_entry, prefix_bytes, remove_entry};
use crate::kinds::Kind;
use ct_base::Name;
use ct_keep::{Batch, KeepFault, Keeper, next_under};
use std::alloc::Global;

/// Adds the removal of the entry whose key has no rest, if it is there.
fn remove_own<K: Keeper>(
    alloc: Global,
    keeper: &mut K,
    batch: &mut Batch,
    kind: Kind,
    owner: &Name,
) -> Result<(), KeepFault>
    requires { (K.view keeper.old).ready }
    ensures ok { Told K.view keeper.old (λ m. OnOk result (batch.new ≡ batch.old ++ spell (removal_at_owner kind owner.now m))) }
    ensures removes { OnOk result (OnlyRemoves batch.old batch.new) }
    ensures reads { OnlyReads K.view keeper.old keeper.new result }
    ensures at_most { LooksAtMost K.view keeper.old keeper.new (look (bytes (key kind owner.now [])) None) }
{
    if has_entry(alloc, keeper, kind, owner, &[])? {
        remove_entry(alloc, batch, kind, owner, &[])?;
    }
    Ok(())
}

/// Adds the removal of each entry whose key has a rest, in the order of their keys.
fn remove_longer<K: Keeper>(
    alloc: Global,
    keeper: &mut K,
    batch: &mut Batch,
    kind: Kind,
    owner: &Name,
) -> Result<(), KeepFault>
    requires { (K.view keeper.old).ready }
    ensures ok { Told K.view keeper.old (λ m. OnOk result (batch.new ≡ batch.old ++ spell (drop_rests kind owner.now (longer_rests kind owner.now m)))) }
    ensures removes { OnOk result (OnlyRemoves batch.old batch.new) }
    ensures reads { OnlyReads K.view keeper.old keeper.new result }
    ensures at_most { Told K.view keeper.old (λ m. LooksAtMost K.view keeper.old keeper.new (scan_looks (prefix_of kind owner.now) m)) }
{
    let prefix = prefix_bytes(alloc, kind, owner)?;
    let mut after = Vec::new(alloc);
    'entries: for _ in 0..u64::MAX {
        match next_under(alloc, keeper, &prefix, &after)? {
            None => return Ok(()),
            Some((rest, _value)) => {
                remove_entry(alloc, batch, kind, owner, &rest)?;
                after = rest;
            }
        }
    }
    // so many entries fit into no memory
    Err(KeepFault::Memory)
}

/// Adds the removal of each of an owner's entries of a kind, in the order of their keys, that of a key without a rest first.
/// The batch is unchanged where the call fails.
///
/// It takes a look-up for each entry whose key has a rest, and two more: one finds whether there is an entry without a rest,
/// and one that no entry is left. No value is held longer than its look-up. It never answers Full.
pub fn remove_entries<K: Keeper>(
    alloc: Global,
    keeper: &mut K,
    batch: &mut Batch,
    kind: Kind,
    owner: &Name,
) -> Result<(), KeepFault>
    requires { (K.view keeper.old).ready }
    ensures ok { Told K.view keeper.old (λ m. OnOk result (batch.new ≡ batch.old ++ spell (owned_removals kind owner.now m))) }
    ensures err { OnErr result (batch.new ≡ batch.old) }
    ensures removes { OnOk result (OnlyRemoves batch.old batch.new) }
    ensures reads { OnlyReads K.view keeper.old keeper.new result }
    ensures at_most { Told K.view keeper.old (λ m. LooksAtMost K.view keeper.old keeper.new (removal_looks kind owner.now m)) }
{
    let mut changes = Batch::new(alloc);
    remove_own(alloc, keeper, &mut changes, kind, owner)?;
    remove_longer(alloc, keeper, &mut changes, kind, owner)?;
    batch.append(changes)?;
    Ok(())
}
