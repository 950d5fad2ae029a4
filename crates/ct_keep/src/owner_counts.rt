//! How many entries stand under each owner.

ghost use Rattle.std.specs.Prelude.{◌≡◌, ◌<◌, ◌^◌, ℕ, List, Some, OnOk, OnErr};
ghost use Rattle.std.specs.Option.{option_map};
ghost use Rattle.std.specs.FinMap.{empty};
ghost use Rattle.ct_keep.specs.Counting.{owner_prefix, prefix_count, CountsMore, CountsLess};

use crate::entry_keys::{EntryKey, value_of};
use ct_base::Memory;
use std::alloc::Global;
use std::collections::BTreeMap;
use std::marker::Model;

/// The prefix of a key's kind and owner, where something follows it.
fn owner_prefix(key: &[u8]) -> Option<&[u8]>
    ensures { option_map (λ p. p.now) result ≡ owner_prefix key.now }
{
    let [_, size, rest @ ..] = key else {
        return None;
    };
    let size = usize::from(*size);
    if size < rest.len() {
        Some(&key[..size + 2])
    } else {
        None
    }
}

/// Counts of entries by the prefixes of their owners. A look-up, and each change, cost the logarithm of the number of owners.
#[derive(Debug, Drop)]
pub struct OwnerCounts {
    counts: BTreeMap<EntryKey, u64>,
    /// A prefix that is looked for. It has room for each of those that are there.
    sought: EntryKey,
}

impl Model for OwnerCounts {
    ghost use Rattle.ct_keep.specs.EntryKeys.{key_room, AreKeyed};
    ghost use Rattle.ct_keep.specs.Counting.{PrefixCounts};
    ghost use Rattle.ct_keep.specs.CountedPairs.{prefix_counts_code, counts_of};

    ghost Value = { PrefixCounts };

    ghost coded = { prefix_counts_code };

    ghost view = { λ c. counts_of c.counts.entries };

    ghost invariant = { λ c. AreKeyed c.counts (key_room c.sought) };
}

impl OwnerCounts {
    /// No entries. It takes no memory.
    pub fn new(alloc: Global) -> OwnerCounts
        ensures { result ≡ empty }
    {
        OwnerCounts {
            counts: BTreeMap::new(alloc),
            sought: EntryKey::of(Vec::new(alloc)),
        }
    }

    /// The count of an owner, by its prefix. It needs no memory; where none is left, its cost is the number of owners.
    pub fn at(&self, owner: &[u8]) -> u64
        ensures { result ≡ prefix_count owner.now self.now }
    {
        value_of(&self.counts, &self.sought, owner)
            .copied()
            .unwrap_or(0)
    }

    /// Counts an entry that comes. It takes memory only for an owner that is new.
    pub fn add(&mut self, alloc: Global, key: &[u8]) -> Result<(), Memory>
        requires { (p : List ℕ) → owner_prefix key.now ≡ Some p → prefix_count p self.old < 2 ^ 63 }
        ensures ok { OnOk result (CountsMore key.now self.old self.new) }
        ensures err { OnErr result (self.new ≡ self.old) }
    {
        let Some(owner) = owner_prefix(key) else {
            return Ok(());
        };
        self.sought.make_room(owner)?;
        if !self.sought.set(owner) {
            unreachable!()
        }
        match self.counts.get_mut(&self.sought) {
            Some(count) => *count += 1,
            None => {
                let copy = Vec::from_slice(alloc, owner)?;
                self.counts.insert(EntryKey::of(copy), 1)?;
            }
        }
        Ok(())
    }

    /// Counts an entry that goes. It takes no memory.
    pub fn remove(&mut self, key: &[u8])
        ensures { CountsLess key.now self.old self.new }
    {
        let Some(owner) = owner_prefix(key) else {
            return;
        };
        if !self.sought.set(owner) {
            return;
        }
        let Some(count) = self.counts.get_mut(&self.sought) else {
            return;
        };
        *count = count.saturating_sub(1);
    }
}
