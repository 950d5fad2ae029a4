//! A keeper in memory, with a script to hear and a buffer for what is said.

ghost use Rattle.std.specs.Prelude.{◌≡◌, ◌+◌, ◌-◌, ◌^◌, ◌≤◌, ◌↔◌, ◌++◌, [], true, Some, None, Ok, Err, IfOk, OnOk, OnErr, IsOk, length, min, take, drop};
ghost use Rattle.std.specs.FinMap.{get};
ghost use Rattle.std.specs.Option.{option_map};
ghost use Rattle.ct_site.specs.FaultCounts.{CountsFaults, ends_after};
ghost use Rattle.ct_keep.specs.Content.{after, entries_above, first_entry};
ghost use Rattle.ct_keep.specs.Counting.{count_under, IsOwner};
ghost use Rattle.ct_keep.specs.Handed.{handed};
ghost use Rattle.ct_keep.specs.Changes.{AnyEntry, AreWell};
ghost use Rattle.ct_keep.specs.KeeperViews.{AnswersCommit, looked_up, committed, fault_of};
ghost use Rattle.ct_keep.specs.InMemory.{NotDisk, come_to, settled_in_memory, holds_in_memory, stays_in_memory};
ghost use Rattle.ct_keep.specs.KeeperStates.{mem_view, IsNew};

use crate::batches::Batch;
use crate::holdings::Holding;
use crate::keepers::{KeepFault, Keeper};
use ct_base::Memory;
use ct_site::Failed;
use std::alloc::Global;
use std::marker::Model;

/// A keeper in memory. It never answers Disk, its `hear` never fails and takes as much as fits, and its `say` takes all,
/// or fails where its room for what is said would be passed. It takes every entry.
/// A look-up, and each change of a commit, cost the logarithm of the number of entries; a count costs that of the number of owners.
#[derive(Debug, Drop)]
pub struct MemKeeper {
    held: Holding,
    script: Vec<u8>,
    heard: usize,
    said: Vec<u8>,
    said_room: usize,
    say_faults: u64,
    ends: u64,
}

impl Model for MemKeeper {
    ghost use Rattle.std.specs.Prelude.{drop};
    ghost use Rattle.ct_keep.specs.KeeperStates.{KeeperState, keeper_state_code, IsRoomy};

    ghost Value = { KeeperState };

    ghost coded = { keeper_state_code };

    ghost view = { λ k. record { content = k.held.content; entries = k.held.entries; limit = k.held.limit; counts = k.held.counts; left = drop k.heard k.script.items; said = k.said.items; said_room = k.said_room; say_faults = k.say_faults; ends = k.ends } };

    ghost invariant = { λ k. IsRoomy k.script.items k.heard k.said k.said_room };
}

impl MemKeeper {
    /// An empty keeper beside a script, whose content may weigh `limit`. It takes the memory for `said_room` bytes said.
    pub fn new(
        alloc: Global,
        script: Vec<u8>,
        limit: u64,
        said_room: usize,
    ) -> Result<MemKeeper, Memory>
        ensures { IfOk result (IsNew script.items limit said_room) }
    {
        let said = Vec::with_capacity(alloc, said_room)?;
        Ok(MemKeeper {
            held: Holding::new(alloc, limit),
            script,
            heard: 0,
            said,
            said_room,
            say_faults: 0,
            ends: 0,
        })
    }

    /// What was said.
    pub fn said(&self) -> &[u8]
        ensures { result.now ≡ self.now.said }
    {
        self.said.as_slice()
    }
}

impl Keeper for MemKeeper {
    ghost view = { mem_view };

    fn fetch(&mut self, alloc: Global, key: &[u8]) -> Result<Option<Vec<u8>>, KeepFault>
        ensures value { IfOk result (λ found. option_map (λ v. v.items) found ≡ get self.old.content key.now) }
        ensures state { self.new ≡ record self.old { counts = looked_up key.now None self.old.counts } }
        ensures never_full { result ≡ Err KeepFault.Full → ⊥ }
        ensures not_disk { NotDisk (fault_of result) }
    {
        self.held.fetch(alloc, key)
    }

    fn next_after(
        &mut self,
        alloc: Global,
        key: &[u8],
    ) -> Result<Option<(Vec<u8>, Vec<u8>)>, KeepFault>
        ensures entry { IfOk result (λ found. option_map (λ e. (e.0.items, e.1.items)) found ≡ first_entry (entries_above key.now self.old.content)) }
        ensures state { self.new ≡ record self.old { counts = looked_up key.now (handed result) self.old.counts } }
        ensures never_full { result ≡ Err KeepFault.Full → ⊥ }
        ensures not_disk { NotDisk (fault_of result) }
    {
        self.held.next_after(alloc, key)
    }

    fn count(&self, owner: &[u8]) -> u64
        requires { IsOwner owner.now }
        ensures { result ≡ count_under owner.now self.now.content }
    {
        self.held.count(owner)
    }

    fn commit(&mut self, alloc: Global, batch: Batch) -> Result<(), KeepFault>
        requires { AreWell AnyEntry batch }
        ensures content { self.new.content ≡ come_to (fault_of result) self.old.content (after batch self.old.content) }
        ensures state { self.new ≡ record self.old { content = self.new.content; entries = self.new.entries; counts = committed (fault_of result) self.old.counts } }
        ensures answers { AnswersCommit (fault_of result) self.old.limit self.old.content (after batch self.old.content) }
        ensures not_disk { NotDisk (fault_of result) }
    {
        self.held.commit(alloc, batch)
    }

    /// It takes as much as is left and fits.
    fn hear(&mut self, into: &mut [u8]) -> Result<usize, Failed>
        ensures count { result ≡ Ok (min (length into.old) (length self.old.left)) }
        ensures heard { IfOk result (λ count. take count into.new ≡ take count self.old.left) }
        ensures state { IfOk result (λ count. self.new ≡ record self.old { left = drop count self.old.left; ends = ends_after result self.old.ends }) }
    {
        let count = into.len().min(self.script.len() - self.heard);
        into[..count].copy_from_slice(&self.script[self.heard..self.heard + count]);
        self.heard += count;
        if count == 0 {
            self.ends = self.ends.saturating_add(1);
        }
        Ok(count)
    }

    /// It takes all of the bytes, or fails exactly where they would pass its room.
    fn say(&mut self, bytes: &[u8]) -> Result<usize, Failed>
        ensures cause { CountsFaults self.old.say_faults self.new.say_faults result }
        ensures room { IsOk result ↔ (length self.old.said + length bytes.now ≤ self.old.said_room) }
        ensures all { IfOk result (λ count. count ≡ length bytes.now) }
        ensures ok { OnOk result (self.new ≡ record self.old { said = self.old.said ++ bytes.now }) }
        ensures err { OnErr result (self.new ≡ record self.old { say_faults = min (self.old.say_faults + 1) (2 ^ 64 - 1) }) }
    {
        if bytes.len() > self.said_room - self.said.len() {
            self.say_faults = self.say_faults.saturating_add(1);
            return Err(Failed);
        }
        let Ok(()) = self.said.extend_from_slice(bytes) else {
            unreachable!()
        };
        Ok(bytes.len())
    }

    ghost settled = { λ k ready. settled_in_memory k.content k.limit k.counts (mem_view k).beside (Some k.said_room) };

    ghost holds = { λ k ready m is. holds_in_memory k.content k.entries m is };

    ghost may_stay = { λ k ready m said is told. stays_in_memory k.content m said is told };

    ghost counts_now = { λ k t stopped said le now. now };

    ghost only_now = { λ k stopped said now. now };
}
