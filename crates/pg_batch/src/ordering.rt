//! The changes of a batch in the order of their keys.

ghost use Rattle.std.specs.Prelude.{◌≡◌, IfOk, OnOk, map};
ghost use Rattle.std.specs.BTreeMap.{IsOrdered};
ghost use Rattle.std.specs.FinMap.{insert, entries};
ghost use Rattle.ct_keep.specs.EntryKeys.{entry_key_order};
ghost use Rattle.ct_keep.specs.SeenChanges.{change_of};
ghost use Rattle.pg_batch.specs.ByKey.{AreByKey, said_map};

use ct_base::Memory;
use ct_keep::{Batch, Change, EntryKey};
use std::alloc::Global;
use std::collections::BTreeMap;

/// Notes what a change says of its key, in place of what was said of it before.
fn note(last: &mut BTreeMap<EntryKey, Option<Vec<u8>>>, change: Change) -> Result<(), Memory>
    ensures ordered { IsOrdered entry_key_order last.new }
    ensures noted { OnOk result (said_map last.new.entries ≡ insert (said_map last.old.entries) (change_of change).0 (change_of change).1) }
{
    let Change { key, value } = change;
    last.insert(EntryKey::of(key), value)?;
    Ok(())
}

/// What the changes of a batch say last of each key.
fn last_of_each(alloc: Global, batch: Batch) -> Result<BTreeMap<EntryKey, Option<Vec<u8>>>, Memory>
    ensures ordered { IfOk result (λ last. IsOrdered entry_key_order last) }
    ensures last { IfOk result (λ last. AreByKey batch (entries (said_map last.entries))) }
{
    let mut last = BTreeMap::new(alloc);
    for change in batch.into_changes() {
        note(&mut last, change)?;
    }
    Ok(last)
}

/// The changes of a batch in strictly rising order of key, each key once with what is said last of it. Keys and values are moved, not copied. It
/// costs the number of changes times its logarithm, and takes memory for a tree of them and for the list.
pub fn by_key(alloc: Global, batch: Batch) -> Result<Vec<Change>, Memory>
    ensures { IfOk result (λ changes. AreByKey batch (map change_of changes.items)) }
{
    let mut changes = Vec::new(alloc);
    for (key, value) in last_of_each(alloc, batch)? {
        let key = key.into_bytes();
        changes.push(Change { key, value })?;
    }
    Ok(changes)
}
