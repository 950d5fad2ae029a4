//! Single entries by the parts of their keys.

ghost use Rattle.std.specs.Prelude.{◌≡◌, ◌++◌, ◌∷◌, [], IfOk, OnOk, OnErr, Some, None, Err, is_some};
ghost use Rattle.std.specs.Option.{option_map};
ghost use Rattle.ct_keep.specs.Content.{Content};
ghost use Rattle.ct_keep.specs.Counting.{count_under};
ghost use Rattle.ct_keep.specs.KeeperViews.{Finds, OnlyReads, Told};
ghost use Rattle.ct_keep.specs.Looks.{look, LooksAtMost};
ghost use Rattle.ct_entry.specs.Keys.{key, bytes, at, prefix_of};
ghost use Rattle.ct_entry.specs.Changes.{spell, put_value, drop_key};

use crate::kinds::Kind;
use ct_base::{Memory, Name};
use ct_keep::{Batch, KeepFault, Keeper};
use std::alloc::Global;

/// What all keys of a kind and an owner begin with.
pub fn prefix_bytes(alloc: Global, kind: Kind, owner: &Name) -> Result<Vec<u8>, Memory>
    ensures { IfOk result (λ b. b.items ≡ prefix_of kind owner.now) }
{
    let name = owner.as_str().as_bytes();
    let mut prefix = Vec::new(alloc);
    prefix.push(kind.code())?;
    prefix.push(name.len() as u8)?;
    prefix.extend_from_slice(name)?;
    Ok(prefix)
}

/// The bytes of a key: the byte of its kind, its owner after its length, and its rest.
pub fn key_bytes(alloc: Global, kind: Kind, owner: &Name, part: &[u8]) -> Result<Vec<u8>, Memory>
    ensures { IfOk result (λ b. b.items ≡ bytes (key kind owner.now part.now)) }
{
    let mut key = prefix_bytes(alloc, kind, owner)?;
    key.extend_from_slice(part)?;
    Ok(key)
}

/// Adds the change that a key is to have a value.
pub fn put_entry(
    alloc: Global,
    batch: &mut Batch,
    kind: Kind,
    owner: &Name,
    part: &[u8],
    value: Vec<u8>,
) -> Result<(), Memory>
    ensures ok { OnOk result (batch.new ≡ batch.old ++ spell (put_value (key kind owner.now part.now) value.items ∷ [])) }
    ensures err { OnErr result (batch.new ≡ batch.old) }
{
    let key = key_bytes(alloc, kind, owner, part)?;
    batch.put(key, value)
}

/// Adds the change that an entry is to go.
pub fn remove_entry(
    alloc: Global,
    batch: &mut Batch,
    kind: Kind,
    owner: &Name,
    part: &[u8],
) -> Result<(), Memory>
    ensures ok { OnOk result (batch.new ≡ batch.old ++ spell (drop_key (key kind owner.now part.now) ∷ [])) }
    ensures err { OnErr result (batch.new ≡ batch.old) }
{
    let key = key_bytes(alloc, kind, owner, part)?;
    batch.remove(key)
}

/// What a key has; None exactly where the content has no such entry. It never answers Full.
pub fn fetch_entry<K: Keeper>(
    alloc: Global,
    keeper: &mut K,
    kind: Kind,
    owner: &Name,
    part: &[u8],
) -> Result<Option<Vec<u8>>, KeepFault>
    requires { (K.view keeper.old).ready }
    ensures value { Finds K.view keeper.old result (λ m found. option_map (λ v. v.items) found ≡ at m (key kind owner.now part.now)) }
    ensures reads { OnlyReads K.view keeper.old keeper.new result }
    ensures at_most { LooksAtMost K.view keeper.old keeper.new (look (bytes (key kind owner.now part.now)) None) }
{
    let key = key_bytes(alloc, kind, owner, part)?;
    keeper.fetch(alloc, &key)
}

/// Whether there is an entry. It never answers Full.
pub fn has_entry<K: Keeper>(
    alloc: Global,
    keeper: &mut K,
    kind: Kind,
    owner: &Name,
    part: &[u8],
) -> Result<bool, KeepFault>
    requires { (K.view keeper.old).ready }
    ensures value { Finds K.view keeper.old result (λ m there. there ≡ is_some (at m (key kind owner.now part.now))) }
    ensures reads { OnlyReads K.view keeper.old keeper.new result }
    ensures at_most { LooksAtMost K.view keeper.old keeper.new (look (bytes (key kind owner.now part.now)) None) }
{
    let found = fetch_entry(alloc, keeper, kind, owner, part)?;
    Ok(found.is_some())
}

/// How many entries of a kind an owner has. It makes no look-up; its cost is the logarithm of the number of owners.
pub fn entry_count<K: Keeper>(
    alloc: Global,
    keeper: &K,
    kind: Kind,
    owner: &Name,
) -> Result<u64, Memory>
    requires { (K.view keeper.now).ready }
    ensures { Told K.view keeper.now (λ m. IfOk result (λ count. count ≡ count_under (prefix_of kind owner.now) m)) }
{
    let prefix = prefix_bytes(alloc, kind, owner)?;
    Ok(keeper.count(&prefix))
}
