//! A store, loaded from a disk, with a directory of its entries or without one.

ghost use Rattle.std.specs.Prelude.{◌≡◌, ◌≤◌, ℕ, List, Some, None, Err, IfOk, length};
ghost use Rattle.ct_site.specs.Disks.{IsSame, IsSettled, Leaves};
ghost use Rattle.ct_site.specs.Lengths.{Lengthens};
ghost use Rattle.ct_keep.specs.Content.{weight};
ghost use Rattle.ct_keep.specs.Counting.{AreCounts};
ghost use Rattle.ct_keep.specs.KeeperViews.{disk_faults_after};
ghost use Rattle.pg_cache.specs.Caches.{IsCacheOf};
ghost use Rattle.pg_journal.specs.Looking.{faults_after_load, Loads, LoadsKnown};
ghost use Rattle.pg_journal.specs.Recovered.{Alike, IsOnlyRead};
ghost use Rattle.pg_journal.specs.Standing.{DiskStands};
ghost use Rattle.pg_journal.specs.Syncs.{SyncsAtMost};
ghost use Rattle.pg_change.specs.Resting.{IsResting};
ghost use Rattle.pg_directory.specs.Holding.{RecoversTo};
ghost use Rattle.pg_directory.specs.Looking.{DiskHolds};
ghost use Rattle.pg_directory.specs.OpenStore.{IsOpenOn, IsStoreOf, IsStoreOr};
ghost use Rattle.pg_directory.specs.Trees.{StorePage};
ghost use Rattle.pg_directory.specs.Unused.{unused_to};
ghost use Rattle.pg_heap.specs.Loading.{RefusedIsSame};
ghost use Rattle.pg_heap.specs.Loading.{IsStoreLoaded, SettledIfTold};

use crate::owner_counting::count_owners;
use ct_base::Memory;
use ct_keep::{KeepFault, OwnerCounts};
use ct_site::Disk;
use pg_cache::PageCache;
use pg_change::resting_sheets;
use pg_directory::{OpenStore, all_places, open_store, unused_places, weigh};
use pg_journal::{Journal, LoadFault};
use pg_window::Sheet;
use std::alloc::Global;

/// The fault of a load whose call failed so.
fn load_fault(fault: KeepFault) -> LoadFault
    ensures faults { (n : ℕ) → faults_after_load {T = Unit {0}} (Err result) n ≡ disk_faults_after (Some fault) n }
    ensures other { result ≡ LoadFault.NotAStore → ⊥ }
{
    match fault {
        KeepFault::Disk => LoadFault::Disk,
        KeepFault::Memory | KeepFault::Full => LoadFault::Memory,
    }
}

/// Opens the store of a journal. NotAStore exactly where its pages hold no map.
fn open_loaded<D: Disk>(
    alloc: Global,
    disk: &mut D,
    cache: &mut PageCache,
    journal: &Journal,
) -> Result<OpenStore, LoadFault>
    requires { IsCacheOf (D.disk disk.old) journal.now cache.old }
    ensures opened { (pages : List (List ℕ)) → DiskStands (D.disk disk.old) journal.now pages → IfOk result (λ store. IsStoreOf store pages) }
    ensures no_store { (pages : List (List ℕ)) → DiskStands (D.disk disk.old) journal.now pages → result ≡ Err LoadFault.NotAStore → IsStoreOr None pages }
    ensures cache { IsCacheOf (D.disk disk.new) journal.now cache.new }
    ensures same { IsSame (D.disk disk.old) (D.disk disk.new) }
    ensures loads { Loads (D.disk disk.old) (D.disk disk.new) result }
{
    let found = match open_store(alloc, disk, cache, journal) {
        Ok(found) => found,
        Err(fault) => return Err(load_fault(fault)),
    };
    let Some(store) = found else {
        return Err(LoadFault::NotAStore);
    };
    Ok(store)
}

/// The pages of a store of so many homes with these free ones, of which nothing is in memory.
pub(crate) fn sheets_at_rest(
    alloc: Global,
    homes: u32,
    free: &[usize],
) -> Result<Vec<Sheet>, Memory>
    requires { 3 ≤ homes }
    ensures { IfOk result (λ sheets. IsResting sheets.items homes free.now) }
{
    let sheets = resting_sheets(alloc, homes as usize - 3, free)?;
    Ok(sheets)
}

/// The places of the free pages of a store that was opened, what its map weighs, how many entries each owner has, and its pages, of which
/// nothing is in memory. It reads the page of each entry twice, in order of key.
fn survey<D: Disk>(
    alloc: Global,
    disk: &mut D,
    cache: &mut PageCache,
    journal: &Journal,
    store: &OpenStore,
) -> Result<(Vec<usize>, u64, OwnerCounts, Vec<Sheet>), LoadFault>
    requires { IsCacheOf (D.disk disk.old) journal.now cache.old }
    ensures unused { (pages : List StorePage) → IsOpenOn store.now pages store.now.top → IfOk result (λ found. found.0.items ≡ unused_to pages (length pages)) }
    ensures total { (pages : List StorePage) (opened : IsOpenOn store.now pages store.now.top) → DiskHolds (D.disk disk.old) journal.now store.now.top pages → IfOk result (λ found. found.1 ≡ weight opened.held) }
    ensures counted { (pages : List StorePage) (opened : IsOpenOn store.now pages store.now.top) → DiskHolds (D.disk disk.old) journal.now store.now.top pages → IfOk result (λ found. AreCounts opened.held found.2) }
    ensures rests { IfOk result (λ found. IsResting found.3.items journal.now found.0.items) }
    ensures no_store { result ≡ Err LoadFault.NotAStore → ⊥ }
    ensures cache { IsCacheOf (D.disk disk.new) journal.now cache.new }
    ensures same { IsSame (D.disk disk.old) (D.disk disk.new) }
    ensures loads { Loads (D.disk disk.old) (D.disk disk.new) result }
{
    let Ok(unused) = unused_places(alloc, &store.notes) else {
        return Err(LoadFault::Memory);
    };
    let Ok(sheets) = sheets_at_rest(alloc, journal.homes(), &unused) else {
        return Err(LoadFault::Memory);
    };
    let places = match all_places(
        alloc,
        disk,
        cache,
        journal,
        store.top,
        &store.directory.leaves,
        &store.places,
    ) {
        Ok(places) => places,
        Err(fault) => return Err(load_fault(fault)),
    };
    let total = match weigh(disk, cache, journal, &places) {
        Ok(total) => total,
        Err(fault) => return Err(load_fault(fault)),
    };
    let counts = match count_owners(alloc, disk, cache, journal, &places) {
        Ok(counts) => counts,
        Err(fault) => return Err(load_fault(fault)),
    };
    Ok((unused, total, counts, sheets))
}

/// What is kept of a store that was loaded.
#[derive(Drop)]
pub struct LoadedStore {
    pub journal: Journal,
    /// Some of its pages.
    pub cache: PageCache,
    /// What its pages are, and its directory.
    pub store: OpenStore,
    /// Its pages, of which nothing is in memory.
    pub sheets: Vec<Sheet>,
    /// The places of its free pages.
    pub unused: Vec<usize>,
    /// What its map weighs.
    pub total: u64,
    /// How many entries each owner has.
    pub counts: OwnerCounts,
}

/// Loads a store, or makes one on an unborn disk. At each moment the disk recovers to what it did. NotAStore exactly where it recovers to no
/// map; then the file is as it was, but for a batch that was put home. A file that isn't unborn and has no batch under way is only read.
pub fn load_store<D: Disk>(alloc: Global, disk: &mut D) -> Result<LoadedStore, LoadFault>
    requires { SettledIfTold (D.disk disk.old) }
    ensures moments { (image : List ℕ) → IsSettled (D.disk disk.old) image → Leaves (D.disk disk.old) (D.disk disk.new) (Alike image) }
    ensures loaded { (image : List ℕ) → IsSettled (D.disk disk.old) image → IfOk result (λ l. IsStoreLoaded image (D.disk disk.new) l.journal l.store l.unused.items l.total l.counts) }
    ensures cache { IfOk result (λ l. IsCacheOf (D.disk disk.new) l.journal l.cache) }
    ensures rests { IfOk result (λ l. IsResting l.sheets.items l.journal l.unused.items) }
    ensures no_store { (image : List ℕ) → IsSettled (D.disk disk.old) image → result ≡ Err LoadFault.NotAStore → RecoversTo image None }
    ensures refused { RefusedIsSame (D.disk disk.old) (D.disk disk.new) result }
    ensures kept { (image : List ℕ) → (D.disk disk.old).image ≡ Some image → IsOnlyRead image → IsSame (D.disk disk.old) (D.disk disk.new) }
    ensures answers { (image : List ℕ) → (D.disk disk.old).image ≡ Some image → LoadsKnown image result }
    ensures syncs { SyncsAtMost 3 (D.disk disk.old) (D.disk disk.new) }
    ensures length { Lengthens 12288 (D.disk disk.old) (D.disk disk.new) }
    ensures loads { Loads (D.disk disk.old) (D.disk disk.new) result }
{
    let journal = Journal::load(alloc, disk)?;
    let Ok(mut cache) = PageCache::new(alloc) else {
        return Err(LoadFault::Memory);
    };
    let store = open_loaded(alloc, disk, &mut cache, &journal)?;
    let (unused, total, counts, sheets) = survey(alloc, disk, &mut cache, &journal, &store)?;
    Ok(LoadedStore {
        journal,
        cache,
        store,
        sheets,
        unused,
        total,
        counts,
    })
}
