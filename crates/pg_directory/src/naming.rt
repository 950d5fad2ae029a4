//! The places that leaves name, one after the other.

ghost use Rattle.std.specs.Prelude.{◌≡◌, ◌≢◌, ◌++◌, ℕ, List, Err, IfOk, OnOk};
ghost use Rattle.ct_site.specs.Disks.{IsSame};
ghost use Rattle.pg_cache.specs.Caches.{IsCacheOf};
ghost use Rattle.pg_directory.specs.Levels.{AreLeaves};
ghost use Rattle.pg_directory.specs.OpenStore.{ArePlaces, NameAll};
ghost use Rattle.pg_directory.specs.Pages.{Leaf, directory_bytes, IsDirectoryPage};
ghost use Rattle.pg_directory.specs.Trees.{StorePage};
ghost use Rattle.pg_directory.specs.Looking.{DiskHolds};
ghost use Rattle.pg_directory.specs.Fetching.{ReadsDisk};
ghost use Rattle.pg_directory.specs.declared.entries.EntryAt.{EntryAt as EntryPlace};

use crate::comparing::page_behind;
use crate::entries::{Child, EntryAt};
use crate::reading::{count_in, named_at};
use ct_base::Memory;
use ct_keep::KeepFault;
use ct_site::Disk;
use pg_cache::PageCache;
use pg_journal::Journal;
use std::alloc::Global;

/// Appends the places that a leaf names.
fn put_named(page: &[u8; 4096], into: &mut Vec<EntryAt>) -> Result<(), Memory>
    ensures { (es : List EntryPlace) → IsDirectoryPage (Leaf es) → page.now ≡ directory_bytes (Leaf es) → OnOk result (into.new.items ≡ into.old.items ++ es) }
{
    for i in 0..count_in(page) {
        into.push(named_at(page, i))?;
    }
    Ok(())
}

/// The places that leaves name, one after the other. It reads each leaf once, and takes eight bytes a place. Where the bytes that are read are
/// those of no leaf, it answers Memory.
pub fn named_places<D: Disk>(
    alloc: Global,
    disk: &mut D,
    cache: &mut PageCache,
    journal: &Journal,
    leaves: &[Child],
) -> Result<Vec<EntryAt>, KeepFault>
    requires { IsCacheOf (D.disk disk.old) journal.now cache.old }
    ensures places { (top : ℕ) (pages : List StorePage) (es : List EntryPlace) → DiskHolds (D.disk disk.old) journal.now top pages → AreLeaves pages leaves.now es → IfOk result (λ places. places.items ≡ es) }
    ensures cache { IsCacheOf (D.disk disk.new) journal.now cache.new }
    ensures same { IsSame (D.disk disk.old) (D.disk disk.new) }
    ensures full { result ≡ Err KeepFault.Full → ⊥ }
    ensures reads { ReadsDisk (D.disk disk.old) (D.disk disk.new) result }
{
    let mut places = Vec::new(alloc);
    for i in 0..leaves.len() {
        let Ok(found) = page_behind(disk, cache, journal, leaves[i].page) else {
            return Err(KeepFault::Disk);
        };
        let Some(kept) = found else {
            return Err(KeepFault::Memory);
        };
        let Ok(()) = put_named(cache.page(kept), &mut places) else {
            return Err(KeepFault::Memory);
        };
    }
    Ok(places)
}

/// The places of all entries of a store, in order of their keys: those that the leaves of its directory name, or those that are kept where its
/// root names no page.
pub fn all_places<D: Disk>(
    alloc: Global,
    disk: &mut D,
    cache: &mut PageCache,
    journal: &Journal,
    top: u32,
    leaves: &[Child],
    places: &[EntryAt],
) -> Result<Vec<EntryAt>, KeepFault>
    requires { IsCacheOf (D.disk disk.old) journal.now cache.old }
    ensures places { (number : ℕ) (pages : List StorePage) → DiskHolds (D.disk disk.old) journal.now number pages → (top ≡ 0 → ArePlaces pages places.now) → (top ≢ 0 → NameAll pages leaves.now)
        → IfOk result (λ all. ArePlaces pages all.items) }
    ensures cache { IsCacheOf (D.disk disk.new) journal.now cache.new }
    ensures same { IsSame (D.disk disk.old) (D.disk disk.new) }
    ensures full { result ≡ Err KeepFault.Full → ⊥ }
    ensures reads { ReadsDisk (D.disk disk.old) (D.disk disk.new) result }
{
    if top != 0 {
        return named_places(alloc, disk, cache, journal, leaves);
    }
    let Ok(all) = Vec::from_slice(alloc, places) else {
        return Err(KeepFault::Memory);
    };
    Ok(all)
}
