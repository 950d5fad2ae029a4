//! The heap of a store with a directory, changed by whole batches.

ghost use Rattle.std.specs.Prelude.{◌≡◌, ◌<◌, ◌^◌, Err, length, map};
ghost use Rattle.ct_keep.specs.Content.{after, weight};
ghost use Rattle.ct_keep.specs.Changes.{AnyEntry, AreWell};
ghost use Rattle.ct_keep.specs.KeeperViews.{AnswersCommit, fault_of};
ghost use Rattle.ct_keep.specs.SeenChanges.{change_of};
ghost use Rattle.pg_batch.specs.ByKey.{KeysRise};
ghost use Rattle.pg_batch.specs.Places.{AreKeyPlaces};
ghost use Rattle.pg_heap.specs.Applying.{Applies};
ghost use Rattle.pg_heap.specs.BatchLengths.{EndsWithin};
ghost use Rattle.pg_heap.specs.Heaps.{IsDirected, IsReady, HeapStands};

use crate::batches::{begin_batch, write_batch};
use crate::heaps::Heap;
use ct_keep::{Batch, KeepFault};
use ct_site::Disk;
use pg_batch::{Asked, ask};
use std::alloc::Global;

impl Heap {
    /// Makes the changes of a batch, all of them or none, where the map may weigh so much: Full exactly where it would weigh more than that,
    /// and more than before. Nothing is written then. At each moment the disk recovers to the old map or the new one, and after Ok to the
    /// new one. After Disk the heap is loaded again.
    pub fn apply_within<D: Disk>(
        &mut self,
        alloc: Global,
        disk: &mut D,
        batch: Batch,
        limit: u64,
    ) -> Result<(), KeepFault>
        requires ready { IsReady (D.disk disk.old) self.old }
        requires directed { IsDirected self.old }
        requires well { AreWell AnyEntry batch }
        ensures applies { Applies batch (D.disk disk.old) (D.disk disk.new) self.old self.new result }
        ensures answers { (s : HeapStands (D.disk disk.old) self.old) → AnswersCommit (fault_of result) limit s.held (after batch s.held) }
        ensures fits { (s : HeapStands (D.disk disk.old) self.old) → result ≡ Err KeepFault.Full → weight (after batch s.held) < 2 ^ 64 }
        ensures ends { (s : HeapStands (D.disk disk.old) self.old) → EndsWithin self.old.homes self.old.free batch s.held (D.disk disk.old) (D.disk disk.new) }
    {
        let top = self.top_named();
        let asked = match ask(
            alloc,
            disk,
            &mut self.cache,
            &self.journal,
            top,
            self.total,
            batch,
            limit,
        ) {
            Ok(asked) => asked,
            Err(fault) => return Err(fault),
        };
        let begun = match begin_batch(
            alloc,
            disk,
            &mut self.cache,
            &self.journal,
            &mut self.sheets,
            &mut self.hints,
            &asked,
        ) {
            Ok(begun) => begun,
            Err(fault) => return Err(fault),
        };
        match write_batch(
            alloc,
            disk,
            &mut self.cache,
            &mut self.journal,
            &mut self.sheets,
            &mut self.hints,
            &mut self.counts,
            top,
            &self.directory,
            begun,
            &asked,
        ) {
            Ok((top, directory)) => {
                self.top = top;
                self.directory = directory;
                self.places = Vec::new(alloc);
                self.total = asked.total;
                Ok(())
            }
            Err(fault) => Err(fault),
        }
    }

    /// The same without a limit.
    pub fn apply<D: Disk>(
        &mut self,
        alloc: Global,
        disk: &mut D,
        batch: Batch,
    ) -> Result<(), KeepFault>
        requires ready { IsReady (D.disk disk.old) self.old }
        requires directed { IsDirected self.old }
        requires well { AreWell AnyEntry batch }
        ensures applies { Applies batch (D.disk disk.old) (D.disk disk.new) self.old self.new result }
        ensures not_full { (s : HeapStands (D.disk disk.old) self.old) → result ≡ Err KeepFault.Full → ⊥ }
        ensures ends { (s : HeapStands (D.disk disk.old) self.old) → EndsWithin self.old.homes self.old.free batch s.held (D.disk disk.old) (D.disk disk.new) }
    {
        self.apply_within(alloc, disk, batch, u64::MAX)
    }
}
