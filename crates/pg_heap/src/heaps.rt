//! The heap of a store whose entries are named, in order of key, by a directory, if it has one.

ghost use Rattle.std.specs.Prelude.{◌≡◌, ◌↔◌, ℕ, List, Some, None, Err, IfOk, IsTrue};
ghost use Rattle.std.specs.Option.{option_map};
ghost use Rattle.std.specs.FinMap.{get};
ghost use Rattle.ct_site.specs.Disks.{IsSame, IsSettled, Leaves};
ghost use Rattle.ct_site.specs.Lengths.{Lengthens};
ghost use Rattle.ct_keep.specs.Changes.{HoldsWell};
ghost use Rattle.ct_keep.specs.Content.{entries_above, first_entry};
ghost use Rattle.ct_keep.specs.Counting.{prefix_count};
ghost use Rattle.pg_journal.specs.Looking.{Loads, LoadsKnown};
ghost use Rattle.pg_journal.specs.Recovered.{Alike, IsOnlyRead};
ghost use Rattle.pg_journal.specs.Syncs.{SyncsAtMost};
ghost use Rattle.pg_change.specs.Resting.{IsResting};
ghost use Rattle.pg_directory.specs.Holding.{RecoversTo};
ghost use Rattle.pg_change.specs.Commits.{ReadsPages};
ghost use Rattle.pg_heap.specs.Loading.{RefusedIsSame};
ghost use Rattle.pg_heap.specs.Heaps.{state_of, IsAsBefore, IsDirected, IsReady, HeapStands};
ghost use Rattle.pg_heap.specs.Loading.{SettledIfTold};

use crate::loading::{LoadedStore, load_store};
use ct_keep::{KeepFault, OwnerCounts, Shape};
use ct_site::Disk;
use pg_cache::PageCache;
use pg_directory::{Directory, EntryAt, OpenStore, all_places, are_well, fetch, next_after};
use pg_journal::{Journal, LoadFault};
use pg_plan::{FreeList, Hints};
use pg_window::Sheet;
use std::alloc::Global;
use std::marker::Model;

/// A map of entries in the pages of a store, of which the leaves of the directory are in memory, and at most 256 pages. Of each page behind
/// the root it is known whether it is free; a page takes 32 bytes for that.
#[derive(Drop)]
pub struct Heap {
    pub(crate) journal: Journal,
    pub(crate) cache: PageCache,
    pub(crate) top: u32,
    pub(crate) directory: Directory,
    pub(crate) places: Vec<EntryAt>,
    pub(crate) sheets: Vec<Sheet>,
    pub(crate) hints: Hints,
    pub(crate) total: u64,
    pub(crate) counts: OwnerCounts,
}

impl Model for Heap {
    ghost use Rattle.pg_heap.specs.Heaps.{HeapState, state_code};
    ghost use Rattle.pg_change.specs.Resting.{IsResting};
    ghost use Rattle.pg_heap.specs.HeapFields.{heap_state};

    ghost Value = { HeapState };

    ghost coded = { state_code };

    ghost view = { heap_state };

    ghost invariant = { λ h. IsResting h.sheets.items h.journal h.hints.free.now };
}

impl Heap {
    /// Loads the heap of a store: makes a store on an unborn disk, or puts home a batch that a crash has left. At each moment the disk
    /// recovers to what it did. NotAStore exactly where it recovers to no map, and then the file is as it was, but for a batch that was
    /// put home. A file that isn't unborn and has no batch under way is only read, whatever the answer. Each page is read once in order, and
    /// then the pages of the directory a few times and the page of each entry three times, in order of key; the disk is synced three times
    /// at most.
    pub fn load<D: Disk>(alloc: Global, disk: &mut D) -> Result<Heap, LoadFault>
        requires { SettledIfTold (D.disk disk.old) }
        ensures moments { (image : List ℕ) → IsSettled (D.disk disk.old) image → Leaves (D.disk disk.old) (D.disk disk.new) (Alike image) }
        ensures loaded { (image : List ℕ) → IsSettled (D.disk disk.old) image → IfOk result (λ heap. (s : HeapStands (D.disk disk.new) heap) × RecoversTo image (Some s.held)) }
        ensures ready { IfOk result (λ heap. IsReady (D.disk disk.new) heap) }
        ensures no_store { (image : List ℕ) → IsSettled (D.disk disk.old) image → result ≡ Err LoadFault.NotAStore → RecoversTo image None }
        ensures refused { RefusedIsSame (D.disk disk.old) (D.disk disk.new) result }
        ensures kept { (image : List ℕ) → (D.disk disk.old).image ≡ Some image → IsOnlyRead image → IsSame (D.disk disk.old) (D.disk disk.new) }
        ensures answers { (image : List ℕ) → (D.disk disk.old).image ≡ Some image → LoadsKnown image result }
        ensures syncs { SyncsAtMost 3 (D.disk disk.old) (D.disk disk.new) }
        ensures length { Lengthens 12288 (D.disk disk.old) (D.disk disk.new) }
        ensures loads { Loads (D.disk disk.old) (D.disk disk.new) result }
    {
        let loaded = match load_store(alloc, disk) {
            Ok(loaded) => loaded,
            Err(fault) => return Err(fault),
        };
        Ok(Heap::of(alloc, loaded))
    }

    /// The heap of a store that was loaded. It takes no memory.
    fn of(alloc: Global, loaded: LoadedStore) -> Heap
        requires { IsResting loaded.sheets.items loaded.journal loaded.unused.items }
        ensures { result ≡ state_of loaded.journal loaded.cache loaded.store loaded.unused.items loaded.total loaded.counts }
    {
        let LoadedStore {
            journal,
            cache,
            store,
            sheets,
            unused,
            total,
            counts,
        } = loaded;
        let OpenStore {
            top,
            directory,
            places,
            notes: _,
            roomy,
        } = store;
        Heap {
            journal,
            cache,
            top,
            directory,
            places,
            sheets,
            hints: Hints {
                free: FreeList::of(alloc, unused),
                roomy,
            },
            total,
            counts,
        }
    }

    /// What the map weighs: for each entry its bytes, and at least 64.
    pub fn weight(&self) -> u64
        ensures { result ≡ self.now.weight }
    {
        self.total
    }

    /// How many entries stand under an owner's prefix. Its cost is the logarithm of the number of owners.
    pub fn count(&self, owner: &[u8]) -> u64
        ensures { result ≡ prefix_count owner.now self.now.counts }
    {
        self.counts.at(owner)
    }

    /// The value of a key, found through the directory. It reads a page of the directory on each level, the pages of as many entries as the
    /// logarithm of their number, and the value.
    pub fn fetch<D: Disk>(
        &mut self,
        alloc: Global,
        disk: &mut D,
        key: &[u8],
    ) -> Result<Option<Vec<u8>>, KeepFault>
        requires ready { IsReady (D.disk disk.old) self.old }
        requires directed { IsDirected self.old }
        ensures value { (s : HeapStands (D.disk disk.old) self.old) → IfOk result (λ found. option_map (λ v. v.items) found ≡ get s.held key.now) }
        ensures ready { IsReady (D.disk disk.new) self.new }
        ensures before { IsAsBefore self.old self.new }
        ensures reads { ReadsPages (D.disk disk.old) (D.disk disk.new) result }
        ensures full { result ≡ Err KeepFault.Full → ⊥ }
    {
        if self.top == 0 {
            return Ok(None);
        }
        fetch(alloc, disk, &mut self.cache, &self.journal, self.top, key)
    }

    /// The entry with the least key that is greater, found in the same way.
    pub fn next_after<D: Disk>(
        &mut self,
        alloc: Global,
        disk: &mut D,
        key: &[u8],
    ) -> Result<Option<(Vec<u8>, Vec<u8>)>, KeepFault>
        requires ready { IsReady (D.disk disk.old) self.old }
        requires directed { IsDirected self.old }
        ensures entry { (s : HeapStands (D.disk disk.old) self.old) → IfOk result (λ found. option_map (λ e. (e.0.items, e.1.items)) found ≡ first_entry (entries_above key.now s.held)) }
        ensures ready { IsReady (D.disk disk.new) self.new }
        ensures before { IsAsBefore self.old self.new }
        ensures reads { ReadsPages (D.disk disk.old) (D.disk disk.new) result }
        ensures full { result ≡ Err KeepFault.Full → ⊥ }
    {
        if self.top == 0 {
            return Ok(None);
        }
        next_after(alloc, disk, &mut self.cache, &self.journal, self.top, key)
    }

    /// Whether each entry is within the bounds, and well shaped. It reads each entry, in order of key.
    pub fn are_well<D: Disk, H: Shape>(
        &mut self,
        alloc: Global,
        disk: &mut D,
        shape: &H,
    ) -> Result<bool, KeepFault>
        requires { IsReady (D.disk disk.old) self.old }
        ensures well { (s : HeapStands (D.disk disk.old) self.old) → IfOk result (λ all. IsTrue all ↔ HoldsWell (H.is_well shape.now) s.held) }
        ensures ready { IsReady (D.disk disk.new) self.new }
        ensures before { IsAsBefore self.old self.new }
        ensures reads { ReadsPages (D.disk disk.old) (D.disk disk.new) result }
        ensures full { result ≡ Err KeepFault.Full → ⊥ }
    {
        let places = match all_places(
            alloc,
            disk,
            &mut self.cache,
            &self.journal,
            self.top,
            &self.directory.leaves,
            &self.places,
        ) {
            Ok(places) => places,
            Err(fault) => return Err(fault),
        };
        are_well(alloc, disk, &mut self.cache, &self.journal, shape, &places)
    }
}
