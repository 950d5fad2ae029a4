//! A store, opened: what its pages are, and its directory, if it has one.

ghost use Rattle.std.specs.Prelude.{◌≡◌, ◌≢◌, ◌+◌, ◌*◌, ◌≤◌, ◌<◌, ◌^◌, ℕ, List, Err, IfOk, IfSome, IsTrue, IsFalse, Some, length, map};
ghost use Rattle.ct_site.specs.Disks.{IsSame};
ghost use Rattle.ct_site.specs.Lengths.{IsWithin};
ghost use Rattle.pg_cache.specs.Caches.{IsCacheOf};
ghost use Rattle.pg_journal.specs.Pages.{top_in};
ghost use Rattle.pg_journal.specs.Standing.{DiskStands};
ghost use Rattle.pg_directory.specs.Trees.{StorePage, kind_of};
ghost use Rattle.pg_directory.specs.Looking.{DiskHolds};
ghost use Rattle.pg_directory.specs.Fetching.{ReadsDisk};
ghost use Rattle.pg_directory.specs.Noting.{note_of};
ghost use Rattle.pg_directory.specs.Opening.{HaveEntries};
ghost use Rattle.pg_directory.specs.OpenStore.{IsOpenOnOr, IsStoreOr, IsTopOr};

use crate::directories::{Directory, directory_count, open_directory};
use crate::entries::EntryAt;
use crate::noting::PageNote;
use crate::opening::{OpenPages, open_pages};
use crate::passing::read_page;
use crate::placing::places_in_order;
use crate::reading::long_number;
use ct_keep::KeepFault;
use ct_site::Disk;
use pg_cache::PageCache;
use pg_journal::Journal;
use std::alloc::Global;

/// What is kept of a store that was opened.
#[derive(Debug, Drop)]
pub struct OpenStore {
    /// The page at the top of its directory, or 0.
    pub top: u32,
    /// The pages of its directory, if it has one.
    pub directory: Directory,
    /// Where its entries stand, in order of their keys, if it has no directory.
    pub places: Vec<EntryAt>,
    /// What each page behind the root is.
    pub notes: Vec<PageNote>,
    /// Where there may be room for a string.
    pub roomy: Vec<usize>,
}

/// The page at the top of the directory that a root names, or 0.
fn top_of(root: &[u8; 4096]) -> u32
    ensures { result ≡ top_in root.now }
{
    long_number(root, 8)
}

/// Whether a file of this size ends before its home pages do.
fn is_short(size: u64, homes: u32) -> bool
    ensures yes { IsTrue result → size < 4096 * homes }
    ensures no { IsFalse result → 4096 * homes ≤ size }
{
    size < 4096 * homes as u64
}

/// The page at the top of the directory that the root of a store names, or 0. None only where the file ends before its home pages do.
fn read_top<D: Disk>(disk: &mut D, journal: &Journal) -> Result<Option<u32>, KeepFault>
    ensures top { (store : List (List ℕ)) → DiskStands (D.disk disk.old) journal.now store → IfOk result (λ found. IsTopOr found journal.now store) }
    ensures within { IfOk result (λ found. IfSome found (λ top. IsWithin (4096 * journal.now) (D.disk disk.new))) }
    ensures same { IsSame (D.disk disk.old) (D.disk disk.new) }
    ensures full { result ≡ Err KeepFault.Full → ⊥ }
    ensures reads { ReadsDisk (D.disk disk.old) (D.disk disk.new) result }
{
    let Ok(size) = disk.size() else {
        return Err(KeepFault::Disk);
    };
    if is_short(size, journal.homes()) {
        return Ok(None);
    }
    let root = match read_page(disk, 2) {
        Ok(root) => root,
        Err(fault) => return Err(fault),
    };
    Ok(Some(top_of(&root)))
}

/// A store without a directory, by the notes of its pages.
fn open_undirected<D: Disk>(
    alloc: Global,
    disk: &mut D,
    cache: &mut PageCache,
    journal: &Journal,
    noted: OpenPages,
) -> Result<Option<OpenStore>, KeepFault>
    requires few { length noted.notes.items < 2 ^ 31 }
    requires cache { IsCacheOf (D.disk disk.old) journal.now cache.old }
    ensures opened { (pages : List StorePage) → DiskHolds (D.disk disk.old) journal.now 0 pages → noted.notes.items ≡ map note_of pages → HaveEntries (map kind_of pages) → IfOk result (λ found. IsOpenOnOr found pages 0) }
    ensures cache { IsCacheOf (D.disk disk.new) journal.now cache.new }
    ensures same { IsSame (D.disk disk.old) (D.disk disk.new) }
    ensures full { result ≡ Err KeepFault.Full → ⊥ }
    ensures reads { ReadsDisk (D.disk disk.old) (D.disk disk.new) result }
{
    let count = directory_count(&noted.notes);
    if count != 0 {
        return Ok(None);
    }
    let found = match places_in_order(alloc, disk, cache, journal, &noted.notes) {
        Ok(found) => found,
        Err(fault) => return Err(fault),
    };
    let Some(places) = found else {
        return Ok(None);
    };
    let directory = Directory {
        inner: Vec::new(alloc),
        leaves: Vec::new(alloc),
    };
    Ok(Some(OpenStore {
        top: 0,
        directory,
        places,
        notes: noted.notes,
        roomy: noted.roomy,
    }))
}

/// A store with a directory, by the notes of its pages.
fn open_directed<D: Disk>(
    alloc: Global,
    disk: &mut D,
    cache: &mut PageCache,
    journal: &Journal,
    noted: OpenPages,
    top: u32,
) -> Result<Option<OpenStore>, KeepFault>
    requires few { length noted.notes.items < 2 ^ 31 }
    requires some { top ≢ 0 }
    requires cache { IsCacheOf (D.disk disk.old) journal.now cache.old }
    ensures opened { (pages : List StorePage) → DiskHolds (D.disk disk.old) journal.now top pages → noted.notes.items ≡ map note_of pages → HaveEntries (map kind_of pages) → IfOk result (λ found. IsOpenOnOr found pages top) }
    ensures cache { IsCacheOf (D.disk disk.new) journal.now cache.new }
    ensures same { IsSame (D.disk disk.old) (D.disk disk.new) }
    ensures full { result ≡ Err KeepFault.Full → ⊥ }
    ensures reads { ReadsDisk (D.disk disk.old) (D.disk disk.new) result }
{
    let found = match open_directory(alloc, disk, cache, journal, &noted.notes, top) {
        Ok(found) => found,
        Err(fault) => return Err(fault),
    };
    let Some(directory) = found else {
        return Ok(None);
    };
    Ok(Some(OpenStore {
        top,
        directory,
        places: Vec::new(alloc),
        notes: noted.notes,
        roomy: noted.roomy,
    }))
}

/// The same, whether it has a directory or not.
fn open_noted<D: Disk>(
    alloc: Global,
    disk: &mut D,
    cache: &mut PageCache,
    journal: &Journal,
    noted: OpenPages,
    top: u32,
) -> Result<Option<OpenStore>, KeepFault>
    requires few { length noted.notes.items < 2 ^ 31 }
    requires cache { IsCacheOf (D.disk disk.old) journal.now cache.old }
    ensures opened { (pages : List StorePage) → DiskHolds (D.disk disk.old) journal.now top pages → noted.notes.items ≡ map note_of pages → HaveEntries (map kind_of pages) → IfOk result (λ found. IsOpenOnOr found pages top) }
    ensures cache { IsCacheOf (D.disk disk.new) journal.now cache.new }
    ensures same { IsSame (D.disk disk.old) (D.disk disk.new) }
    ensures full { result ≡ Err KeepFault.Full → ⊥ }
    ensures reads { ReadsDisk (D.disk disk.old) (D.disk disk.new) result }
{
    if top == 0 {
        open_undirected(alloc, disk, cache, journal, noted)
    } else {
        open_directed(alloc, disk, cache, journal, noted, top)
    }
}

/// Opens the store of a journal: what its pages are, and its directory. It reads each page once in order, and through the cache each page of
/// the directory and the page of each entry; of a store without a directory, the key of each entry is in memory meanwhile. None exactly where
/// the pages hold no map.
pub fn open_store<D: Disk>(
    alloc: Global,
    disk: &mut D,
    cache: &mut PageCache,
    journal: &Journal,
) -> Result<Option<OpenStore>, KeepFault>
    requires { IsCacheOf (D.disk disk.old) journal.now cache.old }
    ensures opened { (store : List (List ℕ)) → DiskStands (D.disk disk.old) journal.now store → IfOk result (λ found. IsStoreOr found store) }
    ensures cache { IsCacheOf (D.disk disk.new) journal.now cache.new }
    ensures same { IsSame (D.disk disk.old) (D.disk disk.new) }
    ensures full { result ≡ Err KeepFault.Full → ⊥ }
    ensures reads { ReadsDisk (D.disk disk.old) (D.disk disk.new) result }
{
    let named = match read_top(disk, journal) {
        Ok(named) => named,
        Err(fault) => return Err(fault),
    };
    let Some(top) = named else {
        return Ok(None);
    };
    let found = match open_pages(alloc, disk, journal.homes() - 3) {
        Ok(found) => found,
        Err(fault) => return Err(fault),
    };
    let Some(noted) = found else {
        return Ok(None);
    };
    open_noted(alloc, disk, cache, journal, noted, top)
}
