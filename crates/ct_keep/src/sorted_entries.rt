//! Entries in the order of their keys.

ghost use Rattle.std.specs.Prelude.{◌≡◌, ◌↔◌, IsTrue, IfOk, OnOk, OnErr, IsSome, Some, None};
ghost use Rattle.std.specs.Option.{option_map};
ghost use Rattle.std.specs.FinMap.{get, insert, remove, empty};
ghost use Rattle.ct_keep.specs.Content.{entries_above, first_entry};
ghost use Rattle.ct_keep.specs.Changes.{HoldsWell, IsWell};
ghost use Rattle.ct_keep.specs.Counting.{count_under, IsOwner};
ghost use Rattle.ct_keep.specs.Transactions.{staying};
ghost use Rattle.ct_keep.specs.EntryKeys.{key_bytes};

use crate::entry_keys::{EntryKey, value_of};
use crate::keepers::Shape;
use crate::limits::{KEY_LIMIT, VALUE_LIMIT};
use crate::owner_counts::OwnerCounts;
use ct_base::Memory;
use std::alloc::Global;
use std::collections::BTreeMap;
use std::marker::Model;
use std::mem::replace;
use std::ops::Bound;

/// Entries in the order of their keys' bytes, seen as the content that they are, and how many there are of each owner.
#[derive(Debug, Drop)]
pub struct SortedEntries {
    entries: BTreeMap<EntryKey, Vec<u8>>,
    /// A key that is looked for. It has room for each of those that are there.
    sought: EntryKey,
    owner_counts: OwnerCounts,
}

impl Model for SortedEntries {
    ghost use Rattle.ct_keep.specs.Content.{Content};
    ghost use Rattle.ct_keep.specs.Pairs.{content_code, content_of};
    ghost use Rattle.ct_keep.specs.CountedPairs.{AreCounted};
    ghost use Rattle.ct_keep.specs.EntryKeys.{key_room};

    ghost Value = { Content };

    ghost coded = { content_code };

    ghost view = { λ e. content_of e.entries.entries };

    ghost invariant = { λ e. AreCounted e.entries (key_room e.sought) e.owner_counts };
}

/// Whether an entry is within the bounds, and well shaped.
fn is_well<H: Shape>(alloc: Global, shape: &H, key: &[u8], value: &[u8]) -> Result<bool, Memory>
    ensures { IfOk result (λ well. IsTrue well ↔ IsWell (H.is_well shape.now) key.now value.now) }
{
    if key.is_empty() || key.len() > KEY_LIMIT || value.len() > VALUE_LIMIT {
        return Ok(false);
    }
    shape.well(alloc, key, value)
}

impl SortedEntries {
    /// No entries. It takes no memory.
    pub(crate) fn new(alloc: Global) -> SortedEntries
        ensures { result ≡ empty }
    {
        SortedEntries {
            entries: BTreeMap::new(alloc),
            sought: EntryKey::of(Vec::new(alloc)),
            owner_counts: OwnerCounts::new(alloc),
        }
    }

    /// How many entries stand under an owner's prefix. Its cost is the logarithm of the number of owners.
    pub(crate) fn count(&self, owner: &[u8]) -> u64
        requires { IsOwner owner.now }
        ensures { result ≡ count_under owner.now self.now }
    {
        self.owner_counts.at(owner)
    }

    /// Whether each entry is within the bounds, and well shaped. Its cost is that of telling of each.
    pub(crate) fn are_well<H: Shape>(&self, alloc: Global, shape: &H) -> Result<bool, Memory>
        ensures { IfOk result (λ all. IsTrue all ↔ HoldsWell (H.is_well shape.now) self.now) }
    {
        for (key, value) in &self.entries {
            if !is_well(alloc, shape, key.as_slice(), value)? {
                return Ok(false);
            }
        }
        Ok(true)
    }

    /// The value of a key. Its cost is the logarithm of the number of entries, and where no memory is left that number.
    pub(crate) fn value_at(&self, key: &[u8]) -> Option<&Vec<u8>>
        ensures { option_map (λ v. v.now.items) result ≡ get self.now key.now }
    {
        value_of(&self.entries, &self.sought, key)
    }

    /// The entry with the least key that is greater. Its cost is the logarithm of the number of entries.
    pub(crate) fn first_after(&self, key: &EntryKey) -> Option<(&EntryKey, &Vec<u8>)>
        ensures { option_map (λ e. (key_bytes e.0.now, e.1.now.items)) result ≡ first_entry (entries_above (key_bytes key.now) self.now) }
    {
        self.entries
            .range((Bound::Excluded(key), Bound::Unbounded))
            .next()
    }

    /// Gives another value to an entry that is there, and gives back the value that it had. It needs no memory.
    pub(crate) fn replace(&mut self, key: &[u8], value: Vec<u8>) -> Vec<u8>
        requires { IsSome (get self.old key.now) }
        ensures content { self.new ≡ insert self.old key.now value.items }
        ensures before { get self.old key.now ≡ Some result.items }
    {
        if !self.sought.set(key) {
            unreachable!()
        }
        let Some(place) = self.entries.get_mut(&self.sought) else {
            unreachable!()
        };
        replace(place, value)
    }

    /// Adds an entry whose key is new.
    pub(crate) fn add(&mut self, alloc: Global, key: Vec<u8>, value: Vec<u8>) -> Result<(), Memory>
        requires { get self.old key.items ≡ None }
        ensures ok { OnOk result (self.new ≡ insert self.old key.items value.items) }
        ensures err { OnErr result (self.new ≡ self.old) }
    {
        // No count is greater than the number of entries, which fits in a usize.
        let _number = self.entries.len();
        self.sought.make_room(&key)?;
        self.owner_counts.add(alloc, &key)?;
        match self.entries.insert(EntryKey::of(key), value) {
            Ok(_) => Ok(()),
            Err(failed) => {
                self.owner_counts.remove(failed.value.0.as_slice());
                Err(Memory)
            }
        }
    }

    /// Gives a key a value, and gives back the value that it had. It fails only where the key is new.
    pub(crate) fn put(
        &mut self,
        alloc: Global,
        key: Vec<u8>,
        value: Vec<u8>,
    ) -> Result<Option<Vec<u8>>, Memory>
        ensures ok { OnOk result (self.new ≡ insert self.old key.items value.items) }
        ensures before { IfOk result (λ was. option_map (λ v. v.items) was ≡ get self.old key.items) }
        ensures err { OnErr result (self.new ≡ self.old) }
        ensures absent { OnErr result (get self.old key.items ≡ None) }
    {
        if self.value_at(&key).is_some() {
            return Ok(Some(self.replace(&key, value)));
        }
        self.add(alloc, key, value)?;
        Ok(None)
    }

    /// Takes an entry out, and gives its value back. It needs no memory.
    pub(crate) fn take(&mut self, key: &[u8]) -> Option<Vec<u8>>
        ensures content { self.new ≡ remove self.old key.now }
        ensures value { option_map (λ v. v.items) result ≡ get self.old key.now }
    {
        if !self.sought.set(key) {
            return None;
        }
        let value = self.entries.remove(&self.sought)?;
        self.owner_counts.remove(key);
        Some(value)
    }

    /// Takes out the entries at the keys of `gone`. It needs no memory.
    pub(crate) fn take_all(&mut self, gone: SortedEntries)
        ensures { self.new ≡ staying self.old gone }
    {
        let SortedEntries {
            entries,
            sought: _,
            owner_counts: _,
        } = gone;
        for (key, _) in entries {
            let _ = self.take(key.as_slice());
        }
    }
}
