//! All entries of a store, looked at one after the other by their places.

ghost use Rattle.std.specs.Prelude.{◌≡◌, ◌↔◌, ℕ, List, Err, IfOk, IsTrue, length, map};
ghost use Rattle.ct_site.specs.Disks.{IsSame};
ghost use Rattle.ct_keep.specs.Content.{Content, entry_weight, weight};
ghost use Rattle.ct_keep.specs.Changes.{HoldsWell, IsWell};
ghost use Rattle.pg_cache.specs.Caches.{IsCacheOf};
ghost use Rattle.pg_map.specs.Holding.{IsLayout, StandsFor};
ghost use Rattle.pg_map.specs.Kinds.{Entry, Kind, StringItem, item_bytes, IsStringItem};
ghost use Rattle.pg_directory.specs.Listing.{entry_at};
ghost use Rattle.pg_directory.specs.Trees.{StorePage, kind_of, HasString};
ghost use Rattle.pg_directory.specs.Looking.{DiskHolds};
ghost use Rattle.pg_directory.specs.Fetching.{ReadsDisk};
ghost use Rattle.pg_directory.specs.OpenStore.{ArePlaces};

use crate::comparing::{key_of, page_behind};
use crate::entries::EntryAt;
use crate::fetching::{behind_key, is_short, read_entry};
use ct_base::Memory;
use ct_keep::{KEY_LIMIT, KeepFault, Shape, VALUE_LIMIT};
use ct_site::Disk;
use pg_cache::PageCache;
use pg_journal::Journal;
use pg_map::far_in;
use pg_page::string_in;
use std::alloc::Global;

/// Whether an entry is within the bounds, and well shaped.
fn is_well<H: Shape>(alloc: Global, shape: &H, key: &[u8], value: &[u8]) -> Result<bool, Memory>
    ensures { IfOk result (λ well. IsTrue well ↔ IsWell (H.is_well shape.now) key.now value.now) }
{
    if key.is_empty() || key.len() > KEY_LIMIT || value.len() > VALUE_LIMIT {
        return Ok(false);
    }
    shape.well(alloc, key, value)
}

/// The same of the entry at a place, which is read.
fn is_entry_well<D: Disk, H: Shape>(
    alloc: Global,
    disk: &mut D,
    cache: &mut PageCache,
    journal: &Journal,
    shape: &H,
    at: EntryAt,
) -> Result<bool, KeepFault>
    requires { IsCacheOf (D.disk disk.old) journal.now cache.old }
    ensures well { (top : ℕ) (pages : List StorePage) (m : Content) → DiskHolds (D.disk disk.old) journal.now top pages → IsLayout (map kind_of pages) m → HasString pages at
        → IfOk result (λ well. IsTrue well ↔ IsWell (H.is_well shape.now) (entry_at pages at).0 (entry_at pages at).1) }
    ensures cache { IsCacheOf (D.disk disk.new) journal.now cache.new }
    ensures same { IsSame (D.disk disk.old) (D.disk disk.new) }
    ensures full { result ≡ Err KeepFault.Full → ⊥ }
    ensures reads { ReadsDisk (D.disk disk.old) (D.disk disk.new) result }
{
    let found = match read_entry(alloc, disk, cache, journal, at) {
        Ok(found) => found,
        Err(fault) => return Err(fault),
    };
    let Some((key, value)) = found else {
        return Err(KeepFault::Memory);
    };
    let Ok(well) = is_well(alloc, shape, &key, &value) else {
        return Err(KeepFault::Memory);
    };
    Ok(well)
}

/// Whether each entry of a store is within the bounds, and well shaped. It reads each entry, in order of key. Where the bytes that are read
/// are those of no store, it answers Memory.
pub fn are_well<D: Disk, H: Shape>(
    alloc: Global,
    disk: &mut D,
    cache: &mut PageCache,
    journal: &Journal,
    shape: &H,
    places: &[EntryAt],
) -> Result<bool, KeepFault>
    requires { IsCacheOf (D.disk disk.old) journal.now cache.old }
    ensures well { (top : ℕ) (pages : List StorePage) (m : Content) → DiskHolds (D.disk disk.old) journal.now top pages → IsLayout (map kind_of pages) m → ArePlaces pages places.now
        → IfOk result (λ all. IsTrue all ↔ HoldsWell (H.is_well shape.now) m) }
    ensures cache { IsCacheOf (D.disk disk.new) journal.now cache.new }
    ensures same { IsSame (D.disk disk.old) (D.disk disk.new) }
    ensures full { result ≡ Err KeepFault.Full → ⊥ }
    ensures reads { ReadsDisk (D.disk disk.old) (D.disk disk.new) result }
{
    for i in 0..places.len() {
        let well = match is_entry_well(alloc, disk, cache, journal, shape, places[i]) {
            Ok(well) => well,
            Err(fault) => return Err(fault),
        };
        if !well {
            return Ok(false);
        }
    }
    Ok(true)
}

/// How many bytes the value of a string's entry has.
fn value_size(string: &[u8]) -> u64
    ensures { (kinds : List Kind) (item : StringItem) (entry : Entry) (chain : List ℕ) → IsStringItem item → StandsFor kinds item entry chain → string.now ≡ item_bytes item → result ≡ length entry.1 }
{
    if is_short(string) {
        return behind_key(string).len() as u64;
    }
    let (_, count) = far_in(string);
    count as u64
}

/// What the entry of a string weighs: its bytes, and at least 64.
fn string_weight(string: &[u8]) -> u64
    ensures { (kinds : List Kind) (item : StringItem) (entry : Entry) (chain : List ℕ) → IsStringItem item → StandsFor kinds item entry chain → string.now ≡ item_bytes item → result ≡ entry_weight entry }
{
    let size = (key_of(string).len() as u64).saturating_add(value_size(string));
    size.max(64)
}

/// What the entry at a place weighs. It reads the entry's page. None only where there is no such entry.
fn weight_at<D: Disk>(
    disk: &mut D,
    cache: &mut PageCache,
    journal: &Journal,
    at: EntryAt,
) -> Result<Option<u64>, KeepFault>
    requires { IsCacheOf (D.disk disk.old) journal.now cache.old }
    ensures weight { (top : ℕ) (pages : List StorePage) (m : Content) → DiskHolds (D.disk disk.old) journal.now top pages → IsLayout (map kind_of pages) m → HasString pages at
        → IfOk result (λ found. found ≡ Some (entry_weight (entry_at pages at))) }
    ensures cache { IsCacheOf (D.disk disk.new) journal.now cache.new }
    ensures same { IsSame (D.disk disk.old) (D.disk disk.new) }
    ensures full { result ≡ Err KeepFault.Full → ⊥ }
    ensures reads { ReadsDisk (D.disk disk.old) (D.disk disk.new) result }
{
    let Ok(found) = page_behind(disk, cache, journal, at.page) else {
        return Err(KeepFault::Disk);
    };
    let Some(kept) = found else {
        return Ok(None);
    };
    let Some(string) = string_in(cache.page(kept), at.slot as usize) else {
        return Ok(None);
    };
    Ok(Some(string_weight(string)))
}

/// What the map of a store weighs: for each entry its bytes, and at least 64. It reads the page of each entry, in order of key. Where the bytes
/// that are read are those of no store, or it weighs 2^64 or more, it answers Memory.
pub fn weigh<D: Disk>(
    disk: &mut D,
    cache: &mut PageCache,
    journal: &Journal,
    places: &[EntryAt],
) -> Result<u64, KeepFault>
    requires { IsCacheOf (D.disk disk.old) journal.now cache.old }
    ensures weight { (top : ℕ) (pages : List StorePage) (m : Content) → DiskHolds (D.disk disk.old) journal.now top pages → IsLayout (map kind_of pages) m → ArePlaces pages places.now
        → IfOk result (λ total. total ≡ weight m) }
    ensures cache { IsCacheOf (D.disk disk.new) journal.now cache.new }
    ensures same { IsSame (D.disk disk.old) (D.disk disk.new) }
    ensures full { result ≡ Err KeepFault.Full → ⊥ }
    ensures reads { ReadsDisk (D.disk disk.old) (D.disk disk.new) result }
{
    let mut total: u64 = 0;
    for i in 0..places.len() {
        let found = match weight_at(disk, cache, journal, places[i]) {
            Ok(found) => found,
            Err(fault) => return Err(fault),
        };
        let Some(own) = found else {
            return Err(KeepFault::Memory);
        };
        let Some(sum) = total.checked_add(own) else {
            return Err(KeepFault::Memory);
        };
        total = sum;
    }
    Ok(total)
}
