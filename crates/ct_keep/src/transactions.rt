//! A commit in memory that is under way.

ghost use Rattle.std.specs.Prelude.{◌≡◌, ◌+◌, ◌^◌, ◌<◌, ◌≤◌, OnOk, map};
ghost use Rattle.std.specs.Option.{option_map};
ghost use Rattle.std.specs.FinMap.{get, insert, remove};
ghost use Rattle.ct_keep.specs.SeenChanges.{change_of};
ghost use Rattle.ct_keep.specs.Content.{set_to, after, entry_weight, weight, value_weight};

use crate::batches::Change;
use crate::sorted_entries::SortedEntries;
use crate::undo_logs::UndoLog;
use ct_base::Memory;
use std::alloc::Global;
use std::marker::Model;

/// What an entry weighs: its bytes, and at least 64.
fn entry_weight(key: &[u8], value: &[u8]) -> u64
    ensures { result ≡ entry_weight (key.now, value.now) }
{
    (key.len() as u64 + value.len() as u64).max(64)
}

/// Entries that change change by change, and that can go back to what they were without taking memory.
/// So an entry that is to go stays among them until the end.
#[derive(Drop)]
pub struct Transaction {
    held: SortedEntries,
    /// The keys of the entries that are to go.
    gone: SortedEntries,
    undo_log: UndoLog,
    /// The weight of the entries without those that are to go.
    total: u128,
}

impl Model for Transaction {
    ghost use Rattle.ct_keep.specs.Transactions.{TransactionState, transaction_code, staying, IsTransaction};
    ghost use Rattle.ct_keep.specs.Undoing.{before_puts};

    ghost Value = { TransactionState };

    ghost coded = { transaction_code };

    ghost view = { λ t. record { before = before_puts t.undo_log t.held; seen = staying t.held t.gone } };

    ghost invariant = { λ t. IsTransaction t.held t.gone t.undo_log t.total };
}

impl Transaction {
    /// Begins with entries and their weight. It takes no memory.
    pub(crate) fn begin(alloc: Global, held: SortedEntries, total: u64) -> Transaction
        requires { total ≡ weight held }
        ensures before { result.before ≡ held }
        ensures seen { result.seen ≡ held }
    {
        Transaction {
            held,
            gone: SortedEntries::new(alloc),
            undo_log: UndoLog::new(alloc),
            total: total as u128,
        }
    }

    /// What the entry at a key weighs, if there is one that stays.
    fn weight_at(&self, key: &[u8]) -> u64
        ensures { result ≡ value_weight key.now (get self.now.seen key.now) }
    {
        if self.gone.value_at(key).is_some() {
            return 0;
        }
        match self.held.value_at(key) {
            Some(value) => entry_weight(key, value),
            None => 0,
        }
    }

    /// Gives a key a value.
    fn put(&mut self, alloc: Global, key: Vec<u8>, value: Vec<u8>) -> Result<(), Memory>
        requires { weight self.old.seen < 2 ^ 127 }
        ensures before { self.new.before ≡ self.old.before }
        ensures seen { OnOk result (self.new.seen ≡ insert self.old.seen key.items value.items) }
        ensures heavier { OnOk result (weight self.new.seen ≤ weight self.old.seen + 2 ^ 64) }
    {
        let copy = Vec::from_slice(alloc, &key)?;
        let less = self.weight_at(&key);
        let more = entry_weight(&key, &value);
        self.undo_log.put(alloc, &mut self.held, key, value)?;
        let _ = self.gone.take(&copy);
        self.total = self.total - less as u128 + more as u128;
        Ok(())
    }

    /// Marks the entry at a key as one that is to go.
    fn remove(&mut self, alloc: Global, key: Vec<u8>) -> Result<(), Memory>
        ensures before { self.new.before ≡ self.old.before }
        ensures seen { OnOk result (self.new.seen ≡ remove self.old.seen key.items) }
        ensures heavier { OnOk result (weight self.new.seen ≤ weight self.old.seen + 2 ^ 64) }
    {
        let less = self.weight_at(&key);
        self.gone.put(alloc, key, Vec::new(alloc))?;
        self.total -= less as u128;
        Ok(())
    }

    /// Does one change.
    fn do_change(&mut self, alloc: Global, change: Change) -> Result<(), Memory>
        requires { weight self.old.seen < 2 ^ 127 }
        ensures before { self.new.before ≡ self.old.before }
        ensures seen { OnOk result (self.new.seen ≡ set_to change.key.items (option_map (λ v. v.items) change.value) self.old.seen) }
        ensures heavier { OnOk result (weight self.new.seen ≤ weight self.old.seen + 2 ^ 64) }
    {
        let Change { key, value } = change;
        match value {
            Some(value) => self.put(alloc, key, value),
            None => self.remove(alloc, key),
        }
    }

    /// Does some changes, the first of them first. Where memory is wanting, some of them may have been done.
    pub fn do_changes(&mut self, alloc: Global, changes: Vec<Change>) -> Result<(), Memory>
        requires { weight self.old.seen < 2 ^ 64 }
        ensures before { self.new.before ≡ self.old.before }
        ensures seen { OnOk result (self.new.seen ≡ after (map change_of changes.items) self.old.seen) }
    {
        for change in changes {
            self.do_change(alloc, change)?;
        }
        Ok(())
    }

    /// The weight of what the changes have made so far.
    pub fn weight(&self) -> u128
        ensures { result ≡ weight self.now.seen }
    {
        self.total
    }

    /// The entries as they were before the changes. It needs no memory.
    pub fn roll_back(self) -> SortedEntries
        ensures { result ≡ self.before }
    {
        let mut held = self.held;
        self.undo_log.undo(&mut held);
        held
    }

    /// The entries that the changes have made. It needs no memory.
    pub fn finish(self) -> SortedEntries
        ensures { result ≡ self.seen }
    {
        let mut held = self.held;
        held.take_all(self.gone);
        held
    }
}
