//! A directory, read level by level.

ghost use Rattle.std.specs.Prelude.{◌≡◌, ◌≤◌, ◌<◌, ℕ, List, Err, IfOk, IsTrue, IsFalse};
ghost use Rattle.std.specs.Option.{option_map};
ghost use Rattle.ct_site.specs.Disks.{IsSame};
ghost use Rattle.pg_cache.specs.Caches.{IsCacheOf};
ghost use Rattle.pg_directory.specs.Pages.{DirectoryPage, directory_bytes, named, IsDirectoryPage};
ghost use Rattle.pg_directory.specs.Trees.{StorePage};
ghost use Rattle.pg_directory.specs.Looking.{DiskHolds};
ghost use Rattle.pg_directory.specs.Fetching.{ReadsDisk};
ghost use Rattle.pg_directory.specs.ReadLevels.{FirstIs, IsLevelOr, TakesChild, TakesItems};

use crate::comparing::page_behind;
use crate::entries::{Child, EntryAt};
use crate::reading::{child_item, count_in, level_in, named_at};
use crate::telling::is_inner;
use ct_base::Memory;
use ct_keep::KeepFault;
use ct_site::Disk;
use pg_cache::PageCache;
use pg_journal::Journal;
use std::alloc::Global;

/// Whether a count is above a limit.
pub(crate) fn is_past(count: usize, limit: usize) -> bool
    ensures yes { IsTrue result → limit < count }
    ensures no { IsFalse result → count ≤ limit }
{
    count > limit
}

/// Whether the first entry that a page of the directory names is this one.
pub(crate) fn is_first(page: &[u8; 4096], entry: EntryAt) -> bool
    ensures { (d : DirectoryPage) → IsDirectoryPage d → page.now ≡ directory_bytes d → FirstIs result (named d) entry }
{
    named_at(page, 0) == entry
}

/// Appends the pages that a page of this level names. False exactly where the bytes are those of no such page.
fn take_items(page: &[u8; 4096], level: u8, into: &mut Vec<Child>) -> Result<bool, Memory>
    requires { 1 ≤ level }
    ensures { IfOk result (λ is. TakesItems is page.now level into.old.items into.new.items) }
{
    let count = count_in(page);
    if count == 0 {
        return Ok(false);
    }
    if level_in(page) != level {
        return Ok(false);
    }
    if !is_inner(page, level, count) {
        return Ok(false);
    }
    for i in 0..count {
        into.push(child_item(page, i))?;
    }
    Ok(true)
}

/// Appends the pages that the page of a child names. False exactly where the child is no page of this level of which it names the least
/// entry.
fn take_child<D: Disk>(
    disk: &mut D,
    cache: &mut PageCache,
    journal: &Journal,
    level: u8,
    child: Child,
    into: &mut Vec<Child>,
) -> Result<bool, KeepFault>
    requires level { 1 ≤ level }
    requires cache { IsCacheOf (D.disk disk.old) journal.now cache.old }
    ensures takes { (top : ℕ) (pages : List StorePage) → DiskHolds (D.disk disk.old) journal.now top pages
        → IfOk result (λ is. TakesChild is pages level child into.old.items into.new.items) }
    ensures cache { IsCacheOf (D.disk disk.new) journal.now cache.new }
    ensures same { IsSame (D.disk disk.old) (D.disk disk.new) }
    ensures full { result ≡ Err KeepFault.Full → ⊥ }
    ensures reads { ReadsDisk (D.disk disk.old) (D.disk disk.new) result }
{
    let Ok(found) = page_behind(disk, cache, journal, child.page) else {
        return Err(KeepFault::Disk);
    };
    let Some(kept) = found else {
        return Ok(false);
    };
    let page = cache.page(kept);
    let Ok(is_taken) = take_items(page, level, into) else {
        return Err(KeepFault::Memory);
    };
    if !is_taken {
        return Ok(false);
    }
    Ok(is_first(page, child.least))
}

/// The pages that the pages of a level above the leaves name, one after the other. It reads each page of the level once. None exactly where
/// these are no such pages, or they name more than so many.
pub fn read_level<D: Disk>(
    alloc: Global,
    disk: &mut D,
    cache: &mut PageCache,
    journal: &Journal,
    level: u8,
    children: &[Child],
    limit: usize,
) -> Result<Option<Vec<Child>>, KeepFault>
    requires level { 1 ≤ level }
    requires cache { IsCacheOf (D.disk disk.old) journal.now cache.old }
    ensures level { (top : ℕ) (pages : List StorePage) → DiskHolds (D.disk disk.old) journal.now top pages
        → IfOk result (λ found. IsLevelOr (option_map (λ v. v.items) found) pages level children.now limit) }
    ensures cache { IsCacheOf (D.disk disk.new) journal.now cache.new }
    ensures same { IsSame (D.disk disk.old) (D.disk disk.new) }
    ensures full { result ≡ Err KeepFault.Full → ⊥ }
    ensures reads { ReadsDisk (D.disk disk.old) (D.disk disk.new) result }
{
    let mut named = Vec::new(alloc);
    for i in 0..children.len() {
        let is_taken = match take_child(disk, cache, journal, level, children[i], &mut named) {
            Ok(is_taken) => is_taken,
            Err(fault) => return Err(fault),
        };
        if !is_taken {
            return Ok(None);
        }
        if is_past(named.len(), limit) {
            return Ok(None);
        }
    }
    Ok(Some(named))
}
