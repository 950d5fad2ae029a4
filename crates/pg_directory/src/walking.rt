//! The entries that leaves name, looked at one after the other.

ghost use Rattle.std.specs.Prelude.{◌∷◌, ◌≡◌, ◌≤◌, ◌<◌, ◌||◌, ℕ, nat_lt, List, [], Err, IfOk, IfSome, IsTrue, IsFalse, length, true};
ghost use Rattle.std.specs.Ordering.{nat_cmp, is_lt};
ghost use Rattle.std.specs.Cmp.Lexicographic.{slice_cmp};
ghost use Rattle.ct_site.specs.Disks.{IsSame};
ghost use Rattle.pg_map.specs.Kinds.{strings_of};
ghost use Rattle.pg_cache.specs.Caches.{IsCacheOf};
ghost use Rattle.pg_directory.specs.Trees.{StorePage, bytes_of_page, kind_of, IsPage};
ghost use Rattle.pg_directory.specs.Looking.{DiskHolds};
ghost use Rattle.pg_directory.specs.Fetching.{ReadsDisk};
ghost use Rattle.pg_directory.specs.Walking.{AreWalkedOr, IsLeafOr, IsWalked, Passes, WalksLeaf};
ghost use Rattle.pg_directory.specs.declared.entries.EntryAt.{EntryAt as EntryPlace};

use crate::comparing::{is_below, key_of, page_behind};
use crate::entries::{Child, EntryAt};
use crate::levels::is_first;
use crate::reading::{count_in, level_in, named_at, short_number};
use crate::telling::is_leaf;
use ct_keep::KeepFault;
use ct_site::Disk;
use pg_cache::PageCache;
use pg_journal::Journal;
use pg_page::string_in;
use std::alloc::Global;

/// Whether a page of a store has a string of this number.
fn has_slot(page: &[u8; 4096], slot: u16) -> bool
    ensures { (p : StorePage) → IsPage p → page.now ≡ bytes_of_page p → result ≡ nat_lt slot (length (strings_of (kind_of p ∷ []))) }
{
    if page[0] != 1 {
        return false;
    }
    slot < short_number(page, 2)
}

/// Whether a key comes behind another one, or is the first of all.
fn comes_next(is_first: bool, key: &[u8], own: &[u8]) -> bool
    ensures { result ≡ (is_first || is_lt (slice_cmp nat_cmp key.now own.now)) }
{
    is_first || is_below(key, own)
}

/// Goes on to the entry at a place: its key is the one that is kept from then on. False exactly where there is no entry, or where its key isn't
/// greater than the one that was kept.
fn pass_entry<D: Disk>(
    disk: &mut D,
    cache: &mut PageCache,
    journal: &Journal,
    at: EntryAt,
    is_first: bool,
    key: &mut Vec<u8>,
) -> Result<bool, KeepFault>
    requires { IsCacheOf (D.disk disk.old) journal.now cache.old }
    ensures passes { (top : ℕ) (pages : List StorePage) → DiskHolds (D.disk disk.old) journal.now top pages
        → IfOk result (λ is. Passes is pages at is_first key.old.items key.new.items) }
    ensures cache { IsCacheOf (D.disk disk.new) journal.now cache.new }
    ensures same { IsSame (D.disk disk.old) (D.disk disk.new) }
    ensures full { result ≡ Err KeepFault.Full → ⊥ }
    ensures reads { ReadsDisk (D.disk disk.old) (D.disk disk.new) result }
{
    let Ok(found) = page_behind(disk, cache, journal, at.page) else {
        return Err(KeepFault::Disk);
    };
    let Some(kept) = found else {
        return Ok(false);
    };
    let page = cache.page(kept);
    if !has_slot(page, at.slot) {
        return Ok(false);
    }
    let Some(string) = string_in(page, at.slot as usize) else {
        return Ok(false);
    };
    let own = key_of(string);
    if !comes_next(is_first, key, own) {
        return Ok(false);
    }
    key.clear();
    let Ok(()) = key.extend_from_slice(own) else {
        return Err(KeepFault::Memory);
    };
    Ok(true)
}

/// Whether the bytes are those of a leaf whose first entry is this one.
fn is_leaf_of(page: &[u8; 4096], least: EntryAt) -> bool
    ensures { IsLeafOr result page.now least }
{
    let count = count_in(page);
    if count == 0 {
        return false;
    }
    if level_in(page) != 0 {
        return false;
    }
    if !is_leaf(page, count) {
        return false;
    }
    is_first(page, least)
}

/// Whether a count has reached a limit.
fn is_full(count: usize, limit: usize) -> bool
    ensures yes { IsTrue result → limit ≤ count }
    ensures no { IsFalse result → count < limit }
{
    count >= limit
}

/// Whether nothing was counted yet.
fn is_none(count: usize) -> bool
    ensures yes { IsTrue result → count ≡ 0 }
    ensures none { count ≡ 0 → result ≡ true }
{
    count == 0
}

/// Goes on to the entries that a leaf names, of which there are so many behind those before them. False exactly where the child is no leaf of
/// which it names the first entry, where an entry isn't there or out of order, or where there are more than the limit.
fn walk_leaf<D: Disk>(
    disk: &mut D,
    cache: &mut PageCache,
    journal: &Journal,
    leaf: Child,
    before: usize,
    limit: usize,
    key: &mut Vec<u8>,
) -> Result<Option<usize>, KeepFault>
    requires within { before ≤ limit }
    requires cache { IsCacheOf (D.disk disk.old) journal.now cache.old }
    ensures walks { (top : ℕ) (pages : List StorePage) (done : List EntryPlace) → DiskHolds (D.disk disk.old) journal.now top pages → IsWalked pages done before key.old.items
        → IfOk result (λ found. WalksLeaf found pages leaf done limit key.new.items) }
    ensures within { IfOk result (λ found. IfSome found (λ count. count ≤ limit)) }
    ensures cache { IsCacheOf (D.disk disk.new) journal.now cache.new }
    ensures same { IsSame (D.disk disk.old) (D.disk disk.new) }
    ensures full { result ≡ Err KeepFault.Full → ⊥ }
    ensures reads { ReadsDisk (D.disk disk.old) (D.disk disk.new) result }
{
    let Ok(found) = page_behind(disk, cache, journal, leaf.page) else {
        return Err(KeepFault::Disk);
    };
    let Some(kept) = found else {
        return Ok(None);
    };
    let page = *cache.page(kept);
    if !is_leaf_of(&page, leaf.least) {
        return Ok(None);
    }
    let mut count = before;
    for i in 0..count_in(&page) {
        if is_full(count, limit) {
            return Ok(None);
        }
        let at = named_at(&page, i);
        let is_next = match pass_entry(disk, cache, journal, at, is_none(count), key) {
            Ok(is_next) => is_next,
            Err(fault) => return Err(fault),
        };
        if !is_next {
            return Ok(None);
        }
        count += 1;
    }
    Ok(Some(count))
}

/// How many entries leaves name, each of which is there, in order of their keys. It reads each leaf once, and the page of each entry. None
/// exactly where these are no such leaves, or name more than so many entries.
pub fn walk_leaves<D: Disk>(
    alloc: Global,
    disk: &mut D,
    cache: &mut PageCache,
    journal: &Journal,
    leaves: &[Child],
    limit: usize,
) -> Result<Option<usize>, KeepFault>
    requires { IsCacheOf (D.disk disk.old) journal.now cache.old }
    ensures walks { (top : ℕ) (pages : List StorePage) → DiskHolds (D.disk disk.old) journal.now top pages
        → IfOk result (λ found. AreWalkedOr found pages leaves.now limit) }
    ensures cache { IsCacheOf (D.disk disk.new) journal.now cache.new }
    ensures same { IsSame (D.disk disk.old) (D.disk disk.new) }
    ensures full { result ≡ Err KeepFault.Full → ⊥ }
    ensures reads { ReadsDisk (D.disk disk.old) (D.disk disk.new) result }
{
    let mut key = Vec::new(alloc);
    let mut count = 0;
    for i in 0..leaves.len() {
        let found = match walk_leaf(disk, cache, journal, leaves[i], count, limit, &mut key) {
            Ok(found) => found,
            Err(fault) => return Err(fault),
        };
        let Some(more) = found else {
            return Ok(None);
        };
        count = more;
    }
    Ok(Some(count))
}
