//! The heap of a store without a directory gets one.

ghost use Rattle.std.specs.Prelude.{◌≡◌, ◌⊎◌, ◌≤◌, ◌<◌, ◌*◌, ◌^◌, true, false, Err, OnOk, length};
ghost use Rattle.ct_site.specs.Disks.{IsSame};
ghost use Rattle.ct_site.specs.Lengths.{Lengthens};
ghost use Rattle.pg_directory.specs.Leaves.{leaves_for};
ghost use Rattle.pg_directory.specs.Numbering.{homes_taken};
ghost use Rattle.pg_change.specs.Commits.{CommitsPages};
ghost use Rattle.pg_heap.specs.Directing.{direct_end, LeavesMap};
ghost use Rattle.pg_heap.specs.Directs.{with_directory, IsReadyUnlessDisk};
ghost use Rattle.pg_heap.specs.Heaps.{IsDirected, IsReady, HeapStands};

use crate::directing::{direct_store, pages_taken};
use crate::heaps::Heap;
use ct_keep::KeepFault;
use ct_site::Disk;
use pg_directory::{Directory, NewDirectory};
use std::alloc::Global;

impl Heap {
    /// Makes the directory where there are entries and the root names none, in one commit; else it does nothing. At each moment the disk
    /// recovers to the same map. It takes memory for the places of the entries, and syncs four times at most. After Disk the heap is loaded
    /// again.
    pub fn direct<D: Disk>(&mut self, alloc: Global, disk: &mut D) -> Result<(), KeepFault>
        requires { IsReady (D.disk disk.old) self.old }
        ensures moments { (s : HeapStands (D.disk disk.old) self.old) → LeavesMap (D.disk disk.old) (D.disk disk.new) s.held }
        ensures stands { (s : HeapStands (D.disk disk.old) self.old) → OnOk result ((t : HeapStands (D.disk disk.new) self.new) × (t.held ≡ s.held)) }
        ensures ready { IsReadyUnlessDisk result (D.disk disk.new) self.new }
        ensures directed { OnOk result (IsDirected self.new) }
        ensures none { IsDirected self.old → IsSame (D.disk disk.old) (D.disk disk.new) × (self.new ≡ self.old) }
        ensures full { result ≡ Err KeepFault.Full → ⊥ }
        ensures length { 2 ^ 31 < homes_taken self.old.free self.old.homes (2 * leaves_for (length self.old.places)) ⊎ Lengthens (direct_end self.old.homes (length self.old.places)) (D.disk disk.old) (D.disk disk.new) }
        ensures commits { CommitsPages (D.disk disk.old) (D.disk disk.new) result }
    {
        let _top = self.top_named();
        if self.is_directed() {
            return Ok(());
        }
        let Ok(free) = self.hints.free.copied(alloc) else {
            return Err(KeepFault::Memory);
        };
        match direct_store(
            alloc,
            disk,
            &mut self.cache,
            &mut self.journal,
            &mut self.sheets,
            &self.places,
            &free,
        ) {
            Ok(made) => {
                self.hints.free.drop_first(pages_taken(&made));
                self.adopt(alloc, made);
                Ok(())
            }
            Err(fault) => Err(fault),
        }
    }

    /// The page at the top of the directory, or 0.
    pub(crate) fn top_named(&self) -> u32
        ensures is { result ≡ self.now.top }
        ensures small { result < 2 ^ 32 }
    {
        self.top
    }

    /// Whether there is a directory, or no entry.
    fn is_directed(&self) -> bool
        ensures yes { result ≡ true → IsDirected self.now }
        ensures none { result ≡ false → self.now.top ≡ 0 }
        ensures some { result ≡ false → 1 ≤ length self.now.places }
    {
        self.top != 0 || self.places.is_empty()
    }

    /// Has the directory that was made. It takes no memory.
    fn adopt(&mut self, alloc: Global, made: NewDirectory)
        ensures { self.new ≡ with_directory made self.old }
    {
        let NewDirectory {
            leaves: _,
            children,
            upper: _,
            inner,
            top,
        } = made;
        self.top = top.page;
        self.directory = Directory {
            inner,
            leaves: children,
        };
        self.places = Vec::new(alloc);
    }
}
