//! A content in memory with its limit and its counts.

ghost use Rattle.std.specs.Prelude.{◌≡◌, true, None, Err, IfOk};
ghost use Rattle.std.specs.Option.{option_map};
ghost use Rattle.std.specs.FinMap.{get, empty};
ghost use Rattle.ct_keep.specs.Content.{after, entries_above, first_entry};
ghost use Rattle.ct_keep.specs.Counting.{count_under, IsOwner};
ghost use Rattle.ct_keep.specs.Handed.{handed};
ghost use Rattle.ct_keep.specs.Changes.{AnyEntry, AreWell, HoldsEntries};
ghost use Rattle.ct_keep.specs.KeeperViews.{AnswersCommit, fault_of, looked_up, committed};
ghost use Rattle.ct_keep.specs.InMemory.{NotDisk, come_to};

use crate::batches::Batch;
use crate::entry_maps::EntryMap;
use crate::keepers::KeepFault;
use crate::tallies::Tally;
use std::alloc::Global;

/// A content in memory, how much it may weigh, and the counts of its look-ups.
#[derive(Debug, Drop)]
pub(crate) struct Holding {
    pub(crate) content: EntryMap,
    pub(crate) limit: u64,
    pub(crate) counts: Tally,
    pub ghost entries: { HoldsEntries content },
}

impl Holding {
    /// An empty content.
    pub(crate) fn new(alloc: Global, limit: u64) -> Holding
        ensures content { result.content ≡ empty }
        ensures limit { result.limit ≡ limit }
        ensures counts { result.counts ≡ record { texts = 0; rows = 0; rules = 0; fulls = 0; commits = 0 } }
    {
        Holding {
            content: EntryMap::new(alloc),
            limit,
            counts: Tally::new(),
        }
    }

    /// The value of a key.
    pub(crate) fn fetch(&mut self, alloc: Global, key: &[u8]) -> Result<Option<Vec<u8>>, KeepFault>
        ensures value { IfOk result (λ found. option_map (λ v. v.items) found ≡ get self.old.content key.now) }
        ensures state { self.new ≡ record self.old { counts = looked_up key.now None self.old.counts } }
        ensures never_full { result ≡ Err KeepFault.Full → ⊥ }
        ensures not_disk { NotDisk (fault_of result) }
    {
        self.counts.look_up(key, None);
        let Ok(found) = self.content.fetch(alloc, key) else {
            return Err(KeepFault::Memory);
        };
        Ok(found)
    }

    /// The entry with the least key that is greater.
    pub(crate) fn next_after(
        &mut self,
        alloc: Global,
        key: &[u8],
    ) -> Result<Option<(Vec<u8>, Vec<u8>)>, KeepFault>
        ensures entry { IfOk result (λ found. option_map (λ e. (e.0.items, e.1.items)) found ≡ first_entry (entries_above key.now self.old.content)) }
        ensures state { self.new ≡ record self.old { counts = looked_up key.now (handed result) self.old.counts } }
        ensures never_full { result ≡ Err KeepFault.Full → ⊥ }
        ensures not_disk { NotDisk (fault_of result) }
    {
        let found = match self.content.next_after(alloc, key) {
            Ok(found) => Ok(found),
            Err(_) => Err(KeepFault::Memory),
        };
        self.counts.hand_out(key, &found);
        found
    }

    /// How many entries stand under an owner's prefix.
    pub(crate) fn count(&self, owner: &[u8]) -> u64
        requires { IsOwner owner.now }
        ensures { result ≡ count_under owner.now self.now.content }
    {
        self.content.count(owner)
    }

    /// Does what the batch says, all of it or none.
    pub(crate) fn commit(&mut self, alloc: Global, batch: Batch) -> Result<(), KeepFault>
        requires { AreWell AnyEntry batch }
        ensures content { self.new.content ≡ come_to (fault_of result) self.old.content (after batch self.old.content) }
        ensures limit { self.new.limit ≡ self.old.limit }
        ensures counts { self.new.counts ≡ committed (fault_of result) self.old.counts }
        ensures answers { AnswersCommit (fault_of result) self.old.limit self.old.content (after batch self.old.content) }
        ensures not_disk { NotDisk (fault_of result) }
    {
        let done = self.content.commit(alloc, batch.into_changes(), self.limit);
        self.counts.commit(&done);
        done
    }
}
