//! A content in memory.

ghost use Rattle.std.specs.Prelude.{◌≡◌, ◌↔◌, ◌<◌, ◌^◌, IsTrue, IfOk, OnOk, OnErr, is_some, map};
ghost use Rattle.std.specs.Option.{option_map};
ghost use Rattle.std.specs.FinMap.{get, empty};
ghost use Rattle.ct_keep.specs.Content.{after, weight, entries_above, first_entry};
ghost use Rattle.ct_keep.specs.Changes.{HoldsWell};
ghost use Rattle.ct_keep.specs.Counting.{count_under, IsOwner};
ghost use Rattle.ct_keep.specs.SeenChanges.{change_of};
ghost use Rattle.ct_keep.specs.KeeperViews.{AnswersCommit, fault_of};
ghost use Rattle.ct_keep.specs.InMemory.{NotDisk};

use crate::batches::Change;
use crate::entry_keys::EntryKey;
use crate::keepers::{KeepFault, Shape};
use crate::sorted_entries::SortedEntries;
use crate::transactions::Transaction;
use ct_base::Memory;
use std::alloc::Global;
use std::marker::Model;
use std::mem::replace;

/// A content in memory, and its weight. A look-up, and each change of a commit, cost the logarithm of the number of entries; a count
/// costs that of the number of owners.
#[derive(Debug, Drop)]
pub struct EntryMap {
    held: SortedEntries,
    total: u64,
}

impl Model for EntryMap {
    ghost use Rattle.std.specs.Prelude.{◌≡◌};
    ghost use Rattle.ct_keep.specs.Content.{Content, weight};
    ghost use Rattle.ct_keep.specs.Pairs.{content_code};

    ghost Value = { Content };

    ghost coded = { content_code };

    ghost view = { λ m. m.held };

    ghost invariant = { λ m. m.total ≡ weight m.held };
}

impl EntryMap {
    /// An empty content. It takes no memory.
    pub fn new(alloc: Global) -> EntryMap
        ensures { result ≡ empty }
    {
        EntryMap {
            held: SortedEntries::new(alloc),
            total: 0,
        }
    }

    /// The value of a key.
    pub fn fetch(&self, alloc: Global, key: &[u8]) -> Result<Option<Vec<u8>>, Memory>
        ensures { IfOk result (λ found. option_map (λ v. v.items) found ≡ get self.now key.now) }
    {
        match self.held.value_at(key) {
            Some(value) => Ok(Some(Vec::from_slice(alloc, value)?)),
            None => Ok(None),
        }
    }

    /// Whether each entry is within the bounds, and well shaped. Its cost is that of telling of each.
    pub fn are_well<H: Shape>(&self, alloc: Global, shape: &H) -> Result<bool, Memory>
        ensures { IfOk result (λ all. IsTrue all ↔ HoldsWell (H.is_well shape.now) self.now) }
    {
        self.held.are_well(alloc, shape)
    }

    /// Whether there is an entry of a key. It needs no memory; where none is left, its cost is the number of entries.
    pub fn has(&self, key: &[u8]) -> bool
        ensures { result ≡ is_some (get self.now key.now) }
    {
        self.held.value_at(key).is_some()
    }

    /// The entry with the least key that is greater.
    pub fn next_after(
        &self,
        alloc: Global,
        key: &[u8],
    ) -> Result<Option<(Vec<u8>, Vec<u8>)>, Memory>
        ensures { IfOk result (λ found. option_map (λ e. (e.0.items, e.1.items)) found ≡ first_entry (entries_above key.now self.now)) }
    {
        let key = EntryKey::of(Vec::from_slice(alloc, key)?);
        match self.held.first_after(&key) {
            Some((key, value)) => {
                let key = Vec::from_slice(alloc, key.as_slice())?;
                Ok(Some((key, Vec::from_slice(alloc, value)?)))
            }
            None => Ok(None),
        }
    }

    /// These entries, of this weight. It takes no memory.
    pub fn of(held: SortedEntries, total: u64) -> EntryMap
        requires { total ≡ weight held }
        ensures { result ≡ held }
    {
        EntryMap { held, total }
    }

    /// What the content weighs: for each entry its bytes, and at least 64. Its cost is constant.
    pub fn weight(&self) -> u64
        ensures { result ≡ weight self.now }
    {
        self.total
    }

    /// Begins a commit that can be undone without taking memory. It takes no memory.
    pub fn begin(self, alloc: Global) -> Transaction
        ensures before { result.before ≡ self }
        ensures seen { result.seen ≡ self }
        ensures bound { weight result.seen < 2 ^ 64 }
    {
        Transaction::begin(alloc, self.held, self.total)
    }

    /// How many entries stand under an owner's prefix. Its cost is the logarithm of the number of owners.
    pub fn count(&self, owner: &[u8]) -> u64
        requires { IsOwner owner.now }
        ensures { result ≡ count_under owner.now self.now }
    {
        self.held.count(owner)
    }

    /// Does what the changes say, all of it or none: Full exactly where the content would weigh more than the limit and more than before.
    pub fn commit(
        &mut self,
        alloc: Global,
        changes: Vec<Change>,
        limit: u64,
    ) -> Result<(), KeepFault>
        ensures ok { OnOk result (self.new ≡ after (map change_of changes.items) self.old) }
        ensures err { OnErr result (self.new ≡ self.old) }
        ensures answers { AnswersCommit (fault_of result) limit self.old (after (map change_of changes.items) self.old) }
        ensures not_disk { NotDisk (fault_of result) }
    {
        let held = replace(&mut self.held, SortedEntries::new(alloc));
        let mut transaction = Transaction::begin(alloc, held, self.total);
        if transaction.do_changes(alloc, changes).is_err() {
            self.held = transaction.roll_back();
            return Err(KeepFault::Memory);
        }
        let total = transaction.weight();
        if total > limit as u128 && total > self.total as u128 {
            self.held = transaction.roll_back();
            return Err(KeepFault::Full);
        }
        self.held = transaction.finish();
        self.total = total as u64;
        Ok(())
    }
}
