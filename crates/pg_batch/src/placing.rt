//! Where the entries of the keys of some changes stand.

ghost use Rattle.std.specs.Prelude.{◌≡◌, List, ℕ, Err, IfOk, length, map};
ghost use Rattle.ct_site.specs.Disks.{IsSame};
ghost use Rattle.ct_keep.specs.SeenChanges.{change_of};
ghost use Rattle.pg_cache.specs.Caches.{IsCacheOf};
ghost use Rattle.pg_directory.specs.Fetching.{ReadsDisk};
ghost use Rattle.pg_directory.specs.Looking.{DiskHolds, AreNeighbours};
ghost use Rattle.pg_directory.specs.Trees.{StorePage, IsDirectory};
ghost use Rattle.pg_directory.specs.declared.entries.EntryAt.{EntryAt as EntryPlace};
ghost use Rattle.pg_batch.specs.Places.{IsKeyPlace, AreKeyPlaces, FindsAll};

use crate::strings::{has_key, page_of};
use ct_keep::{Change, KeepFault};
use ct_site::Disk;
use pg_cache::PageCache;
use pg_directory::{EntryAt, Neighbours, look_up};
use pg_journal::Journal;
use std::alloc::Global;

/// Of the entries next to a key: the place of the first of them, if it has just this key.
fn place_among<D: Disk>(
    disk: &mut D,
    cache: &mut PageCache,
    journal: &Journal,
    found: Neighbours,
    key: &[u8],
) -> Result<Option<EntryAt>, KeepFault>
    requires { IsCacheOf (D.disk disk.old) journal.now cache.old }
    ensures place { (top : ℕ) (pages : List StorePage) (es : List EntryPlace) → DiskHolds (D.disk disk.old) journal.now top pages → IsDirectory pages top es → AreNeighbours pages es key.now found
        → IfOk result (λ found. IsKeyPlace pages key.now found) }
    ensures cache { IsCacheOf (D.disk disk.new) journal.now cache.new }
    ensures same { IsSame (D.disk disk.old) (D.disk disk.new) }
    ensures full { result ≡ Err KeepFault.Full → ⊥ }
    ensures reads { ReadsDisk (D.disk disk.old) (D.disk disk.new) result }
{
    let Some(at) = found.at_most else {
        return Ok(None);
    };
    let Ok(page) = page_of(disk, cache, journal, at) else {
        return Err(KeepFault::Disk);
    };
    let Some(page) = page else {
        return Err(KeepFault::Memory);
    };
    match has_key(cache.page(page), at.slot, key) {
        Some(true) => Ok(Some(at)),
        Some(false) => Ok(None),
        None => Err(KeepFault::Memory),
    }
}

/// Where the entry of a key stands, found through the directory whose top is the page of a number; None where no entry has the key. The
/// number is 0 only where there is no entry, and then nothing is read. It reads a page of the directory on each level, and the pages of as
/// many entries as the logarithm of their number; it takes no memory. Where the bytes that are read are those of no store, it answers Memory.
pub fn place_of<D: Disk>(
    disk: &mut D,
    cache: &mut PageCache,
    journal: &Journal,
    top: u32,
    key: &[u8],
) -> Result<Option<EntryAt>, KeepFault>
    requires { IsCacheOf (D.disk disk.old) journal.now cache.old }
    ensures place { (pages : List StorePage) → DiskHolds (D.disk disk.old) journal.now top pages → FindsAll pages top
        → IfOk result (λ found. IsKeyPlace pages key.now found) }
    ensures cache { IsCacheOf (D.disk disk.new) journal.now cache.new }
    ensures same { IsSame (D.disk disk.old) (D.disk disk.new) }
    ensures full { result ≡ Err KeepFault.Full → ⊥ }
    ensures reads { ReadsDisk (D.disk disk.old) (D.disk disk.new) result }
{
    if top == 0 {
        return Ok(None);
    }
    let Ok(found) = look_up(disk, cache, journal, top, key) else {
        return Err(KeepFault::Disk);
    };
    let Some(found) = found else {
        return Err(KeepFault::Memory);
    };
    place_among(disk, cache, journal, found, key)
}

/// Where the entries of the keys of some changes stand, each found so, in the order of the changes. It takes memory for the list. Where the
/// keys rise, the pages that one look-up reads are mostly those of the one before it.
pub fn places_of<D: Disk>(
    alloc: Global,
    disk: &mut D,
    cache: &mut PageCache,
    journal: &Journal,
    top: u32,
    changes: &[Change],
) -> Result<Vec<Option<EntryAt>>, KeepFault>
    requires { IsCacheOf (D.disk disk.old) journal.now cache.old }
    ensures places { (pages : List StorePage) → DiskHolds (D.disk disk.old) journal.now top pages → FindsAll pages top
        → IfOk result (λ found. AreKeyPlaces pages (map change_of changes.now) found.items) }
    ensures count { IfOk result (λ found. length found.items ≡ length changes.now) }
    ensures cache { IsCacheOf (D.disk disk.new) journal.now cache.new }
    ensures same { IsSame (D.disk disk.old) (D.disk disk.new) }
    ensures full { result ≡ Err KeepFault.Full → ⊥ }
    ensures reads { ReadsDisk (D.disk disk.old) (D.disk disk.new) result }
{
    let mut places = Vec::new(alloc);
    for i in 0..changes.len() {
        let place = match place_of(disk, cache, journal, top, &changes[i].key) {
            Ok(place) => place,
            Err(fault) => return Err(fault),
        };
        let Ok(()) = places.push(place) else {
            return Err(KeepFault::Memory);
        };
    }
    Ok(places)
}
