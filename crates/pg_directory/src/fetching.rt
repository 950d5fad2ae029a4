//! Entries, found through the directory.

ghost use Rattle.std.specs.Prelude.{◌≡◌, ◌≢◌, ℕ, List, Some, None, Err, IfOk, map, true, false};
ghost use Rattle.std.specs.Bool.{if◌then◌else◌};
ghost use Rattle.std.specs.Option.{option_map};
ghost use Rattle.std.specs.FinMap.{get};
ghost use Rattle.ct_site.specs.Disks.{IsSame};
ghost use Rattle.ct_keep.specs.Content.{Content, entries_above, first_entry};
ghost use Rattle.ct_keep.specs.laws.Rising.{Entry};
ghost use Rattle.pg_map.specs.Holding.{StandsFor, IsLayout};
ghost use Rattle.pg_map.specs.Kinds.{StringItem, Short, Far, item_bytes, IsStringItem};
ghost use Rattle.pg_cache.specs.Caches.{IsCacheOf};
ghost use Rattle.pg_directory.specs.Trees.{StorePage, kind_of, HasString};
ghost use Rattle.pg_directory.specs.Holding.{HasTop};
ghost use Rattle.pg_directory.specs.Looking.{DiskHolds};
ghost use Rattle.pg_directory.specs.Listing.{entry_at};
ghost use Rattle.pg_directory.specs.Fetching.{ReadsDisk};

use crate::comparing::{key_of, page_behind};
use crate::entries::EntryAt;
use crate::searching::look_up;
use crate::values::read_long;
use ct_keep::KeepFault;
use ct_site::Disk;
use pg_cache::PageCache;
use pg_journal::Journal;
use pg_map::far_in;
use pg_page::string_in;
use std::alloc::Global;

/// Whether the value of an entry stands behind its key, in its string.
pub(crate) fn is_short(string: &[u8]) -> bool
    ensures short { (key value : List ℕ) → string.now ≡ item_bytes (Short key value) → result ≡ true }
    ensures far { (key : List ℕ) (count first : ℕ) → string.now ≡ item_bytes (Far key count first) → result ≡ false }
{
    if string.is_empty() {
        return false;
    }
    string[0] == 0
}

/// What stands behind the key in the string of an entry.
pub(crate) fn behind_key(string: &[u8]) -> &[u8]
    ensures { (key value : List ℕ) → IsStringItem (Short key value) → string.now ≡ item_bytes (Short key value) → result.now ≡ value }
{
    if string.len() < 3 {
        return &string[..0];
    }
    let count = u16::from_be_bytes([string[1], string[2]]) as usize;
    let rest = &string[3..];
    if count > rest.len() {
        return &string[..0];
    }
    &rest[count..]
}

/// The key and the value of the entry at a place. It reads the entry's page, and the long pages of its value. None only where there is
/// no such entry.
pub fn read_entry<D: Disk>(
    alloc: Global,
    disk: &mut D,
    cache: &mut PageCache,
    journal: &Journal,
    at: EntryAt,
) -> Result<Option<(Vec<u8>, Vec<u8>)>, KeepFault>
    requires { IsCacheOf (D.disk disk.old) journal.now cache.old }
    ensures entry { (top : ℕ) (pages : List StorePage) (m : Content) → DiskHolds (D.disk disk.old) journal.now top pages → IsLayout (map kind_of pages) m → HasString pages at
        → IfOk result (λ found. option_map (λ e. (e.0.items, e.1.items)) found ≡ Some (entry_at pages at)) }
    ensures cache { IsCacheOf (D.disk disk.new) journal.now cache.new }
    ensures same { IsSame (D.disk disk.old) (D.disk disk.new) }
    ensures full { result ≡ Err KeepFault.Full → ⊥ }
    ensures reads { ReadsDisk (D.disk disk.old) (D.disk disk.new) result }
{
    let Ok(found) = page_behind(disk, cache, journal, at.page) else {
        return Err(KeepFault::Disk);
    };
    let Some(kept) = found else {
        return Ok(None);
    };
    let Some(string) = string_in(cache.page(kept), at.slot as usize) else {
        return Ok(None);
    };
    let Ok(key) = Vec::from_slice(alloc, key_of(string)) else {
        return Err(KeepFault::Memory);
    };
    if is_short(string) {
        let Ok(value) = Vec::from_slice(alloc, behind_key(string)) else {
            return Err(KeepFault::Memory);
        };
        return Ok(Some((key, value)));
    }
    let (first, count) = far_in(string);
    match read_long(alloc, disk, cache, journal, first, count) {
        Ok(Some(value)) => Ok(Some((key, value))),
        Ok(None) => Ok(None),
        Err(fault) => Err(fault),
    }
}

/// The value of a key, found through the directory whose top is the page of a number. It reads a page of the directory on each level, the
/// pages of as many entries as the logarithm of their number, and the value. It takes memory for the value alone. Where the bytes that are
/// read are those of no store, it answers Memory.
pub fn fetch<D: Disk>(
    alloc: Global,
    disk: &mut D,
    cache: &mut PageCache,
    journal: &Journal,
    top: u32,
    key: &[u8],
) -> Result<Option<Vec<u8>>, KeepFault>
    requires { IsCacheOf (D.disk disk.old) journal.now cache.old }
    ensures value { (pages : List StorePage) (m : Content) → DiskHolds (D.disk disk.old) journal.now top pages → IsLayout (map kind_of pages) m → HasTop pages top
        → IfOk result (λ found. option_map (λ v. v.items) found ≡ get m key.now) }
    ensures cache { IsCacheOf (D.disk disk.new) journal.now cache.new }
    ensures same { IsSame (D.disk disk.old) (D.disk disk.new) }
    ensures full { result ≡ Err KeepFault.Full → ⊥ }
    ensures reads { ReadsDisk (D.disk disk.old) (D.disk disk.new) result }
{
    let Ok(found) = look_up(disk, cache, journal, top, key) else {
        return Err(KeepFault::Disk);
    };
    let Some(found) = found else {
        return Err(KeepFault::Memory);
    };
    let Some(at) = found.at_most else {
        return Ok(None);
    };
    match read_entry(alloc, disk, cache, journal, at) {
        Ok(Some((own, value))) => Ok(value_if(value, is_same(&own, key))),
        Ok(None) => Err(KeepFault::Memory),
        Err(fault) => Err(fault),
    }
}

/// Whether two keys are the same.
fn is_same(own: &[u8], key: &[u8]) -> bool
    ensures yes { result ≡ true → own.now ≡ key.now }
    ensures no { result ≡ false → own.now ≢ key.now }
{
    own == key
}

/// A value, if it is the one that was looked for.
fn value_if(value: Vec<u8>, is_same: bool) -> Option<Vec<u8>>
    ensures { result ≡ (if is_same then Some value else None) }
{
    if is_same { Some(value) } else { None }
}

/// The entry with the least key that is greater, found in the same way.
pub fn next_after<D: Disk>(
    alloc: Global,
    disk: &mut D,
    cache: &mut PageCache,
    journal: &Journal,
    top: u32,
    key: &[u8],
) -> Result<Option<(Vec<u8>, Vec<u8>)>, KeepFault>
    requires { IsCacheOf (D.disk disk.old) journal.now cache.old }
    ensures entry { (pages : List StorePage) (m : Content) → DiskHolds (D.disk disk.old) journal.now top pages → IsLayout (map kind_of pages) m → HasTop pages top
        → IfOk result (λ found. option_map (λ e. (e.0.items, e.1.items)) found ≡ first_entry (entries_above key.now m)) }
    ensures cache { IsCacheOf (D.disk disk.new) journal.now cache.new }
    ensures same { IsSame (D.disk disk.old) (D.disk disk.new) }
    ensures full { result ≡ Err KeepFault.Full → ⊥ }
    ensures reads { ReadsDisk (D.disk disk.old) (D.disk disk.new) result }
{
    let Ok(found) = look_up(disk, cache, journal, top, key) else {
        return Err(KeepFault::Disk);
    };
    let Some(found) = found else {
        return Err(KeepFault::Memory);
    };
    let Some(at) = found.after else {
        return Ok(None);
    };
    match read_entry(alloc, disk, cache, journal, at) {
        Ok(Some(entry)) => Ok(Some(entry)),
        Ok(None) => Err(KeepFault::Memory),
        Err(fault) => Err(fault),
    }
}
