//! Loading the heap of a store whose entries are to be well shaped.

ghost use Rattle.std.specs.Prelude.{◌≡◌, ℕ, List, Some, None, Err, IfOk};
ghost use Rattle.ct_site.specs.Disks.{IsSettled, Leaves};
ghost use Rattle.ct_site.specs.Lengths.{Lengthens};
ghost use Rattle.ct_keep.specs.Changes.{HoldsWell};
ghost use Rattle.ct_keep.specs.KeeperViews.{disk_faults_after};
ghost use Rattle.pg_journal.specs.Looking.{faults_after_load, Loads, LoadsKnown};
ghost use Rattle.pg_journal.specs.Recovered.{Alike, IsOnlyRead};
ghost use Rattle.pg_journal.specs.Syncs.{SyncsAtMost};
ghost use Rattle.pg_directory.specs.Holding.{RecoversTo};
ghost use Rattle.pg_heap.specs.Heaps.{IsReady, HeapStands};
ghost use Rattle.pg_keeper.specs.Loading.{HasNoStore, IsOldOrAlike, LeavesOneMap, LengthensLoaded, LoadsMap, OnlyLoadsNeedless, OnlyReadStays, RefusedStays, StaysAs};
ghost use Rattle.pg_keeper.specs.Paged.{IsUsable};

use ct_keep::{KeepFault, Shape};
use ct_site::Disk;
use pg_heap::Heap;
use pg_journal::LoadFault;
use std::alloc::Global;

/// The fault of a load of which a call of the heap failed so.
fn fault_of_heap(fault: KeepFault) -> LoadFault
    ensures faults { (n : ℕ) → faults_after_load {T = Unit {0}} (Err result) n ≡ disk_faults_after (Some fault) n }
    ensures other { result ≡ LoadFault.NotAStore → ⊥ }
{
    if let KeepFault::Disk = fault {
        LoadFault::Disk
    } else {
        LoadFault::Memory
    }
}

/// Loads the heap of a store after a sync of its file, whatever shape its entries have.
fn load_synced<D: Disk>(alloc: Global, disk: &mut D) -> Result<Heap, LoadFault>
    ensures moments { (image : List ℕ) → (D.disk disk.old).image ≡ Some image → Leaves (D.disk disk.old) (D.disk disk.new) (IsOldOrAlike (D.disk disk.old) image) }
    ensures alike { (image now : List ℕ) → (D.disk disk.old).image ≡ Some image → (D.disk disk.new).image ≡ Some now → Alike image now }
    ensures loaded { LoadsMap (D.disk disk.old) (D.disk disk.new) result }
    ensures ready { IfOk result (λ heap. IsReady (D.disk disk.new) heap) }
    ensures no_store { (image : List ℕ) → (D.disk disk.old).image ≡ Some image → result ≡ Err LoadFault.NotAStore → RecoversTo image None }
    ensures refused { RefusedStays (D.disk disk.old) (D.disk disk.new) result }
    ensures kept { (image : List ℕ) → IsSettled (D.disk disk.old) image → IsOnlyRead image → StaysAs image (D.disk disk.old) (D.disk disk.new) }
    ensures answers { (image : List ℕ) → (D.disk disk.old).image ≡ Some image → LoadsKnown image result }
    ensures syncs { SyncsAtMost 4 (D.disk disk.old) (D.disk disk.new) }
    ensures length { Lengthens 12288 (D.disk disk.old) (D.disk disk.new) }
    ensures loads { Loads (D.disk disk.old) (D.disk disk.new) result }
{
    let Ok(()) = disk.sync() else {
        return Err(LoadFault::Disk);
    };
    Heap::load(alloc, disk)
}

/// Loads the heap of a store, each entry of which is one that the shape takes, after a sync of its file. It makes no directory.
fn load_well<D: Disk, H: Shape>(alloc: Global, disk: &mut D, shape: &H) -> Result<Heap, LoadFault>
    ensures moments { (image : List ℕ) → (D.disk disk.old).image ≡ Some image → Leaves (D.disk disk.old) (D.disk disk.new) (IsOldOrAlike (D.disk disk.old) image) }
    ensures alike { (image now : List ℕ) → (D.disk disk.old).image ≡ Some image → (D.disk disk.new).image ≡ Some now → Alike image now }
    ensures loaded { LoadsMap (D.disk disk.old) (D.disk disk.new) result }
    ensures ready { IfOk result (λ heap. IsReady (D.disk disk.new) heap) }
    ensures entries { IfOk result (λ heap. (s : HeapStands (D.disk disk.new) heap) → HoldsWell (H.is_well shape.now) s.held) }
    ensures no_store { (image : List ℕ) → (D.disk disk.old).image ≡ Some image → result ≡ Err LoadFault.NotAStore → HasNoStore (H.is_well shape.now) image }
    ensures kept { (image : List ℕ) → IsSettled (D.disk disk.old) image → IsOnlyRead image → StaysAs image (D.disk disk.old) (D.disk disk.new) }
    ensures answers { (image : List ℕ) → (D.disk disk.old).image ≡ Some image → LoadsKnown image result }
    ensures syncs { SyncsAtMost 4 (D.disk disk.old) (D.disk disk.new) }
    ensures refused { RefusedStays (D.disk disk.old) (D.disk disk.new) result }
    ensures length { Lengthens 12288 (D.disk disk.old) (D.disk disk.new) }
    ensures loads { Loads (D.disk disk.old) (D.disk disk.new) result }
{
    let mut heap = match load_synced(alloc, disk) {
        Ok(heap) => heap,
        Err(fault) => return Err(fault),
    };
    match heap.are_well(alloc, disk, shape) {
        Ok(true) => Ok(heap),
        Ok(false) => Err(LoadFault::NotAStore),
        Err(fault) => Err(fault_of_heap(fault)),
    }
}

/// Loads the heap of a store, each entry of which is one that the shape takes, after a sync of its file: so what it tells holds of
/// what a crash leaves from then on, whatever was pending; until then a crash leaves nothing new. A store that has entries and no directory
/// gets one, in one commit: at each moment it recovers to the map that it did. NotAStore exactly where the image recovers to nothing, or to
/// a map with an entry that the shape doesn't take. A file that isn't unborn, has no batch under way and needs no directory is only read,
/// whatever the answer; one that is refused is as it was, but for a batch that was put home. Its cost is that of reading each page once, and
/// the pages of the directory and of the entries a few times more, in order of key; and of eight syncs at most, four where no directory is made.
pub fn load_heap<D: Disk, H: Shape>(
    alloc: Global,
    disk: &mut D,
    shape: &H,
) -> Result<Heap, LoadFault>
    ensures moments { LeavesOneMap (H.is_well shape.now) (D.disk disk.old) (D.disk disk.new) }
    ensures loaded { LoadsMap (D.disk disk.old) (D.disk disk.new) result }
    ensures usable { IfOk result (λ heap. IsUsable (D.disk disk.new) heap (H.is_well shape.now)) }
    ensures no_store { (image : List ℕ) → (D.disk disk.old).image ≡ Some image → result ≡ Err LoadFault.NotAStore → HasNoStore (H.is_well shape.now) image }
    ensures kept { OnlyReadStays (H.is_well shape.now) (D.disk disk.old) (D.disk disk.new) }
    ensures needless { OnlyLoadsNeedless (H.is_well shape.now) (D.disk disk.old) (D.disk disk.new) }
    ensures answers { (image : List ℕ) → (D.disk disk.old).image ≡ Some image → LoadsKnown image result }
    ensures syncs { SyncsAtMost 8 (D.disk disk.old) (D.disk disk.new) }
    ensures refused { RefusedStays (D.disk disk.old) (D.disk disk.new) result }
    ensures length { (image : List ℕ) → (D.disk disk.old).image ≡ Some image → LengthensLoaded image (D.disk disk.old) (D.disk disk.new) }
    ensures loads { Loads (D.disk disk.old) (D.disk disk.new) result }
{
    let mut heap = match load_well(alloc, disk, shape) {
        Ok(heap) => heap,
        Err(fault) => return Err(fault),
    };
    match heap.direct(alloc, disk) {
        Ok(()) => Ok(heap),
        Err(fault) => Err(fault_of_heap(fault)),
    }
}
