//! A directory, read from its top to its leaves.

ghost use Rattle.std.specs.Prelude.{◌≡◌, ◌++◌, ℕ, List, Err, IfOk, OnOk};
ghost use Rattle.std.specs.Option.{option_map};
ghost use Rattle.ct_site.specs.Disks.{IsSame};
ghost use Rattle.pg_cache.specs.Caches.{IsCacheOf};
ghost use Rattle.pg_directory.specs.Trees.{StorePage};
ghost use Rattle.pg_directory.specs.Levels.{pages_of};
ghost use Rattle.pg_directory.specs.Looking.{DiskHolds};
ghost use Rattle.pg_directory.specs.Fetching.{ReadsDisk};
ghost use Rattle.pg_directory.specs.ReadLevels.{IsTopOf, LedOr, LevelsOr};

use crate::comparing::page_behind;
use crate::entries::Child;
use crate::levels::{is_past, read_level};
use crate::reading::{level_in, named_at};
use ct_base::Memory;
use ct_keep::KeepFault;
use ct_site::Disk;
use pg_cache::PageCache;
use pg_journal::Journal;
use std::alloc::Global;

/// Appends the numbers of pages.
fn add_numbers(numbers: &mut Vec<u32>, children: &[Child]) -> Result<(), Memory>
    ensures { OnOk result (numbers.new.items ≡ numbers.old.items ++ pages_of children.now) }
{
    for child in children {
        numbers.push(child.page)?;
    }
    Ok(())
}

/// The page at the top of a directory, with the first entry that it names.
fn top_child(alloc: Global, top: u32, page: &[u8; 4096]) -> Result<Vec<Child>, Memory>
    ensures { IfOk result (λ tops. IsTopOf tops.items top page.now) }
{
    let least = named_at(page, 0);
    let mut tops = Vec::new(alloc);
    tops.push(Child { page: top, least })?;
    Ok(tops)
}

/// The numbers of these pages, which are so far above the leaves, and of those below them down to the leaves, and the leaves. None exactly where
/// they lead to no leaves, or there are more than so many pages above the leaves or leaves.
fn go_down<D: Disk>(
    alloc: Global,
    disk: &mut D,
    cache: &mut PageCache,
    journal: &Journal,
    mut level: u8,
    mut here: Vec<Child>,
    limit: usize,
) -> Result<Option<(Vec<u32>, Vec<Child>)>, KeepFault>
    requires { IsCacheOf (D.disk disk.old) journal.now cache.old }
    ensures levels { (number : ℕ) (pages : List StorePage) → DiskHolds (D.disk disk.old) journal.now number pages
        → IfOk result (λ found. LedOr (option_map (λ l. (l.0.items, l.1.items)) found) pages level here.items limit) }
    ensures cache { IsCacheOf (D.disk disk.new) journal.now cache.new }
    ensures same { IsSame (D.disk disk.old) (D.disk disk.new) }
    ensures full { result ≡ Err KeepFault.Full → ⊥ }
    ensures reads { ReadsDisk (D.disk disk.old) (D.disk disk.new) result }
{
    let mut numbers = Vec::new(alloc);
    while level > 0 {
        let Ok(()) = add_numbers(&mut numbers, &here) else {
            return Err(KeepFault::Memory);
        };
        if is_past(numbers.len(), limit) {
            return Ok(None);
        }
        let found = match read_level(alloc, disk, cache, journal, level, &here, limit) {
            Ok(found) => found,
            Err(fault) => return Err(fault),
        };
        let Some(below) = found else {
            return Ok(None);
        };
        here = below;
        level -= 1;
    }
    Ok(Some((numbers, here)))
}

/// The numbers of the pages of a directory above its leaves, and its leaves. It reads each page above the leaves once. None exactly where from
/// this page on there is no directory with at most so many pages above the leaves, and at most so many leaves.
pub fn read_levels<D: Disk>(
    alloc: Global,
    disk: &mut D,
    cache: &mut PageCache,
    journal: &Journal,
    top: u32,
    limit: usize,
) -> Result<Option<(Vec<u32>, Vec<Child>)>, KeepFault>
    requires { IsCacheOf (D.disk disk.old) journal.now cache.old }
    ensures levels { (number : ℕ) (pages : List StorePage) → DiskHolds (D.disk disk.old) journal.now number pages
        → IfOk result (λ found. LevelsOr (option_map (λ l. (l.0.items, l.1.items)) found) pages top limit) }
    ensures cache { IsCacheOf (D.disk disk.new) journal.now cache.new }
    ensures same { IsSame (D.disk disk.old) (D.disk disk.new) }
    ensures full { result ≡ Err KeepFault.Full → ⊥ }
    ensures reads { ReadsDisk (D.disk disk.old) (D.disk disk.new) result }
{
    let Ok(found) = page_behind(disk, cache, journal, top) else {
        return Err(KeepFault::Disk);
    };
    let Some(kept) = found else {
        return Ok(None);
    };
    let page = cache.page(kept);
    let level = level_in(page);
    let Ok(tops) = top_child(alloc, top, page) else {
        return Err(KeepFault::Memory);
    };
    go_down(alloc, disk, cache, journal, level, tops, limit)
}
