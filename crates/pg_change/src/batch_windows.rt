//! The pages that a batch begins with, brought into memory: those of the old entries of its keys, and some with room.

ghost use Rattle.std.specs.Prelude.{◌≡◌, ℕ, List, Err, IfOk, OnOk, OnErr, map};
ghost use Rattle.ct_site.specs.Disks.{IsSame};
ghost use Rattle.ct_keep.specs.Content.{Content};
ghost use Rattle.pg_cache.specs.Caches.{IsCacheOf};
ghost use Rattle.pg_directory.specs.Trees.{StorePage};
ghost use Rattle.pg_directory.specs.Fetching.{ReadsDisk};
ghost use Rattle.pg_window.specs.Windows.{away_of};
ghost use Rattle.pg_window.specs.Loading.{IsStoreWindow, Loads};
ghost use Rattle.pg_change.specs.BatchWindows.{place_or, AreIn};

use ct_base::Memory;
use ct_keep::KeepFault;
use ct_site::Disk;
use pg_cache::PageCache;
use pg_directory::EntryAt;
use pg_journal::Journal;
use pg_window::{Sheet, is_roomy, load_pages};
use std::alloc::Global;

/// The place of an entry's page, counted from the first page behind the root, or else another one.
fn place_of_page(entry: Option<EntryAt>, none: usize) -> usize
    ensures { result ≡ place_or none entry }
{
    match entry {
        Some(at) => (at.page as usize).saturating_sub(3),
        None => none,
    }
}

/// The places of the pages of some entries, each counted from the first page behind the root; where there is no entry it is `none`. It takes
/// eight bytes for each.
pub fn page_places(
    alloc: Global,
    entries: &[Option<EntryAt>],
    none: usize,
) -> Result<Vec<usize>, Memory>
    ensures { IfOk result (λ places. places.items ≡ map (place_or none) entries.now) }
{
    let mut places = Vec::new(alloc);
    for i in 0..entries.len() {
        places.push(place_of_page(entries[i], none))?;
    }
    Ok(places)
}

/// Brings the page of each of these entries into memory, where it isn't, as `load_pages` does: those that were loaded are listed, and after an
/// error all is as it was. It reads each page that it loads once, and takes the memory that they take, and eight bytes for each entry for as
/// long as it runs. Where the bytes that are read are those of no store, it answers Memory.
pub fn load_places<D: Disk>(
    alloc: Global,
    disk: &mut D,
    cache: &mut PageCache,
    journal: &Journal,
    sheets: &mut Vec<Sheet>,
    loaded: &mut Vec<usize>,
    entries: &[Option<EntryAt>],
) -> Result<(), KeepFault>
    requires { IsCacheOf (D.disk disk.old) journal.now cache.old }
    ensures window { (top : ℕ) (pages : List StorePage) (m : Content) → IsStoreWindow (D.disk disk.old) journal.now top pages m sheets.old.items
        → IsStoreWindow (D.disk disk.new) journal.now top pages m sheets.new.items }
    ensures there { (top : ℕ) (pages : List StorePage) (m : Content) → IsStoreWindow (D.disk disk.old) journal.now top pages m sheets.old.items
        → OnOk result (AreIn pages entries.now (away_of sheets.new.items)) }
    ensures loads { OnOk result (Loads sheets.old.items sheets.new.items loaded.old.items loaded.new.items) }
    ensures back { OnErr result ((sheets.new.items ≡ sheets.old.items) × (loaded.new.items ≡ loaded.old.items)) }
    ensures cache { IsCacheOf (D.disk disk.new) journal.now cache.new }
    ensures same { IsSame (D.disk disk.old) (D.disk disk.new) }
    ensures full { result ≡ Err KeepFault.Full → ⊥ }
    ensures reads { ReadsDisk (D.disk disk.old) (D.disk disk.new) result }
{
    let Ok(places) = page_places(alloc, entries, usize::MAX) else {
        return Err(KeepFault::Memory);
    };
    load_pages(alloc, disk, cache, journal, sheets, loaded, &places)
}

/// Of the places that were noted as ones with room, the last `limit`: brings their pages into memory, as `load_pages` does, and gives the
/// places of those that may have room, in their order. A page that isn't one of entries stays away, and isn't given. After an error all is as
/// it was. What it gives are hints: each is tried before it is used.
pub fn load_roomy<D: Disk>(
    alloc: Global,
    disk: &mut D,
    cache: &mut PageCache,
    journal: &Journal,
    sheets: &mut Vec<Sheet>,
    loaded: &mut Vec<usize>,
    roomy: &[usize],
    limit: usize,
) -> Result<Vec<usize>, KeepFault>
    requires { IsCacheOf (D.disk disk.old) journal.now cache.old }
    ensures window { (top : ℕ) (pages : List StorePage) (m : Content) → IsStoreWindow (D.disk disk.old) journal.now top pages m sheets.old.items
        → IsStoreWindow (D.disk disk.new) journal.now top pages m sheets.new.items }
    ensures loads { OnOk result (Loads sheets.old.items sheets.new.items loaded.old.items loaded.new.items) }
    ensures back { OnErr result ((sheets.new.items ≡ sheets.old.items) × (loaded.new.items ≡ loaded.old.items)) }
    ensures cache { IsCacheOf (D.disk disk.new) journal.now cache.new }
    ensures same { IsSame (D.disk disk.old) (D.disk disk.new) }
    ensures full { result ≡ Err KeepFault.Full → ⊥ }
    ensures reads { ReadsDisk (D.disk disk.old) (D.disk disk.new) result }
{
    let first = roomy.len().saturating_sub(limit);
    let Ok(mut found) = Vec::from_slice(alloc, &roomy[first..]) else {
        return Err(KeepFault::Memory);
    };
    match load_pages(alloc, disk, cache, journal, sheets, loaded, &found) {
        Ok(()) => {}
        Err(fault) => return Err(fault),
    }
    keep_roomy(&mut found, sheets);
    Ok(found)
}

/// Lets go of the places of pages that aren't to be offered as ones with room.
fn keep_roomy(found: &mut Vec<usize>, sheets: &[Sheet]) {
    found.retain(|at| has_room(sheets, *at));
}

/// Whether the page at a place is one of entries in memory that may be offered as one with room.
fn has_room(sheets: &[Sheet], at: usize) -> bool {
    match sheets.get(at) {
        Some(Sheet::Slotted(page)) => is_roomy(page),
        _ => false,
    }
}
