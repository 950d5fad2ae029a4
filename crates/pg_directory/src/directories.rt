//! The directory of a store that is opened.

ghost use Rattle.std.specs.Prelude.{◌∷◌, [], ◌≡◌, ◌≤◌, ◌<◌, ◌+◌, ◌^◌, ℕ, List, Err, IfOk, IsTrue, IsFalse, length, map};
ghost use Rattle.ct_site.specs.Disks.{IsSame};
ghost use Rattle.pg_map.specs.Kinds.{strings_of};
ghost use Rattle.pg_cache.specs.Caches.{IsCacheOf};
ghost use Rattle.pg_directory.specs.Trees.{StorePage, kind_of, one_if_directory};
ghost use Rattle.pg_directory.specs.Looking.{DiskHolds};
ghost use Rattle.pg_directory.specs.Fetching.{ReadsDisk};
ghost use Rattle.pg_directory.specs.Noting.{note_of};
ghost use Rattle.pg_directory.specs.Counting.{directory_numbers};
ghost use Rattle.pg_directory.specs.OpenDirectory.{IsOpenOr};

use crate::entries::Child;
use crate::levels_down::read_levels;
use crate::noting::PageNote;
use crate::walking::walk_leaves;
use ct_keep::KeepFault;
use ct_site::Disk;
use pg_cache::PageCache;
use pg_journal::Journal;
use std::alloc::Global;

/// What is kept of a directory: the numbers of its pages above the leaves, and its leaves, each with the first entry that it names. It takes
/// some twelve bytes a page of the directory.
#[derive(Debug, Drop)]
pub struct Directory {
    pub inner: Vec<u32>,
    pub leaves: Vec<Child>,
}

/// How many strings a page has, by its note.
fn strings_noted(note: PageNote) -> usize
    ensures is { (p : StorePage) → note ≡ note_of p → result ≡ length (strings_of (kind_of p ∷ [])) }
    ensures small { result < 2 ^ 16 }
{
    match note {
        PageNote::Slotted { strings } => strings as usize,
        _ => 0,
    }
}

/// 1 where a page is one of a directory, by its note, and else 0.
fn one_if_noted(note: PageNote) -> usize
    ensures is { (p : StorePage) → note ≡ note_of p → result ≡ one_if_directory p }
    ensures small { result ≤ 1 }
{
    match note {
        PageNote::Directory => 1,
        _ => 0,
    }
}

/// How many strings pages have.
pub fn string_count(notes: &[PageNote]) -> usize
    requires { length notes.now < 2 ^ 32 }
    ensures { (pages : List StorePage) → notes.now ≡ map note_of pages → result ≡ length (strings_of (map kind_of pages)) }
{
    let mut count = 0;
    for i in 0..notes.len() {
        count += strings_noted(notes[i]);
    }
    count
}

/// How many pages are those of a directory.
pub fn directory_count(notes: &[PageNote]) -> usize
    requires { length notes.now < 2 ^ 32 }
    ensures { (pages : List StorePage) → notes.now ≡ map note_of pages → result ≡ length (directory_numbers 3 pages) }
{
    let mut count = 0;
    for i in 0..notes.len() {
        count += one_if_noted(notes[i]);
    }
    count
}

/// Whether pages above the leaves of a directory and its leaves are so many together.
fn are_as_many(inner: &[u32], leaves: &[Child], pages: usize) -> bool
    ensures yes { IsTrue result → length inner.now + length leaves.now ≡ pages }
    ensures no { IsFalse result → length inner.now + length leaves.now ≡ pages → ⊥ }
{
    inner.len() <= pages && leaves.len() == pages - inner.len()
}

/// Whether two counts are the same.
fn is_same(count: usize, wanted: usize) -> bool
    ensures yes { IsTrue result → count ≡ wanted }
    ensures no { IsFalse result → count ≡ wanted → ⊥ }
{
    count == wanted
}

/// The directory from a page at its top, in a store whose pages are noted. It reads each page of the directory, and the page of each entry
/// that it names. None exactly where there is no directory of all entries from there.
pub fn open_directory<D: Disk>(
    alloc: Global,
    disk: &mut D,
    cache: &mut PageCache,
    journal: &Journal,
    notes: &[PageNote],
    top: u32,
) -> Result<Option<Directory>, KeepFault>
    requires few { length notes.now < 2 ^ 32 }
    requires cache { IsCacheOf (D.disk disk.old) journal.now cache.old }
    ensures opened { (number : ℕ) (pages : List StorePage) → DiskHolds (D.disk disk.old) journal.now number pages → notes.now ≡ map note_of pages → IfOk result (λ found. IsOpenOr found pages top) }
    ensures cache { IsCacheOf (D.disk disk.new) journal.now cache.new }
    ensures same { IsSame (D.disk disk.old) (D.disk disk.new) }
    ensures full { result ≡ Err KeepFault.Full → ⊥ }
    ensures reads { ReadsDisk (D.disk disk.old) (D.disk disk.new) result }
{
    let pages = directory_count(notes);
    let strings = string_count(notes);
    let levels = match read_levels(alloc, disk, cache, journal, top, pages) {
        Ok(levels) => levels,
        Err(fault) => return Err(fault),
    };
    let Some((inner, leaves)) = levels else {
        return Ok(None);
    };
    if !are_as_many(&inner, &leaves, pages) {
        return Ok(None);
    }
    let walked = match walk_leaves(alloc, disk, cache, journal, &leaves, strings) {
        Ok(walked) => walked,
        Err(fault) => return Err(fault),
    };
    let Some(count) = walked else {
        return Ok(None);
    };
    if !is_same(count, strings) {
        return Ok(None);
    }
    Ok(Some(Directory { inner, leaves }))
}
