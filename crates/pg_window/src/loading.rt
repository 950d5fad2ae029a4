//! Pages of entries, brought into memory with the values of their entries.

ghost use Rattle.std.specs.Prelude.{◌≡◌, ◌≤◌, ◌<◌, ◌+◌, ◌-◌, ◌^◌, ℕ, List, [], ◌∷◌, Some, None, Err, IfOk, IfSome, OnOk, OnErr, length, map, get_or, true, false};
ghost use Rattle.ct_site.specs.Disks.{IsSame};
ghost use Rattle.ct_keep.specs.Content.{Content};
ghost use Rattle.pg_page.specs.Pages.{Fits, page_bytes};
ghost use Rattle.pg_map.specs.Holding.{kind_of_page, IsChain, Placed, StandsFor, bytes_of, chains_of};
ghost use Rattle.pg_map.specs.Kinds.{Free, Slotted, Long, Short, Far, IsKind, bytes_of_kind, item_bytes, IsStringItem};
ghost use Rattle.pg_map.specs.Loose.{Stand};
ghost use Rattle.pg_map.specs.laws.Standing.{Items};
ghost use Rattle.pg_cache.specs.Caches.{IsCacheOf};
ghost use Rattle.pg_directory.specs.Trees.{StorePage, Plain, kind_of};
ghost use Rattle.pg_directory.specs.Fetching.{ReadsDisk};
ghost use Rattle.pg_window.specs.Sheets.{sheet_kind, is_away};
ghost use Rattle.pg_window.specs.Windows.{away_of};
ghost use Rattle.pg_window.specs.Loading.{AddsLongs, is_free, IsStoreWindow, Loads, PutsKind, ShowsStore};
ghost use Rattle.pg_window.specs.declared.sheets.Sheet.TheVariants.{Free as FreeSheet, Away as AwaySheet};

use crate::sheets::Sheet;
use crate::unloading::{set_sheet, unload_behind};
use ct_base::Memory;
use ct_keep::KeepFault;
use ct_site::Disk;
use pg_cache::PageCache;
use pg_directory::page_behind;
use pg_journal::Journal;
use pg_map::{far_in, sheet_of};
use pg_page::{Page, Slot};
use std::alloc::Global;

// ---- pages in memory

/// Whether there is a page at a place that isn't in memory.
fn is_away_at(sheets: &[Sheet], at: usize) -> bool
    ensures yes { result ≡ true → (at < length sheets.now) × (get_or sheets.now at FreeSheet ≡ AwaySheet) }
    ensures no { result ≡ false → get_or (away_of sheets.now) at false ≡ false }
{
    match sheets.get(at) {
        Some(Sheet::Away) => true,
        _ => false,
    }
}

/// Puts a page where none was in memory, and lists its place.
fn put_sheet(
    sheets: &mut Vec<Sheet>,
    loaded: &mut Vec<usize>,
    at: usize,
    sheet: Sheet,
) -> Result<(), Memory>
    requires there { is_away sheet ≡ false }
    requires used { is_free (sheet_kind sheet) ≡ false }
    requires kind { IsKind (sheet_kind sheet) }
    ensures puts { OnOk result (PutsKind sheets.old.items sheets.new.items at (sheet_kind sheet)) }
    ensures loads { Loads sheets.old.items sheets.new.items loaded.old.items loaded.new.items }
{
    if !is_away_at(sheets, at) {
        return Err(Memory);
    }
    loaded.push(at)?;
    set_sheet(sheets, at, sheet);
    Ok(())
}

/// The long page of these bytes: the number of the next page, or 0, and the bytes of a value that it has.
fn long_of(alloc: Global, page: &[u8; 4096]) -> Result<Option<(u32, Vec<u8>)>, Memory>
    ensures long { (next : ℕ) (used : List ℕ) → IsKind (Long next used) → page.now ≡ bytes_of_kind (Long next used) → IfOk result (λ found. IfSome found (λ p. (p.0 ≡ next) × (p.1.items ≡ used))) }
    ensures some { IfOk result (λ found. IfSome found (λ p. IsKind (Long p.0 p.1.items))) }
{
    match sheet_of(alloc, page)? {
        Some(pg_map::Sheet::Long { next, bytes }) => Ok(Some((next, bytes))),
        _ => Ok(None),
    }
}

/// Puts the long page of these bytes at a place where no page was in memory: gives the number of the next page, or 0, and how many bytes of a
/// value the page has.
fn put_long(
    alloc: Global,
    page: &[u8; 4096],
    sheets: &mut Vec<Sheet>,
    loaded: &mut Vec<usize>,
    at: usize,
) -> Result<(u32, usize), Memory>
    ensures put { (next : ℕ) (used : List ℕ) → IsKind (Long next used) → page.now ≡ bytes_of_kind (Long next used)
        → IfOk result (λ r. (r.0 ≡ next) × (r.1 ≡ length used) × PutsKind sheets.old.items sheets.new.items at (Long next used)) }
    ensures some { IfOk result (λ r. (1 ≤ r.1) × (r.1 ≤ 4088)) }
    ensures loads { Loads sheets.old.items sheets.new.items loaded.old.items loaded.new.items }
{
    let Some((next, bytes)) = long_of(alloc, page)? else {
        return Err(Memory);
    };
    let used = bytes.len();
    put_sheet(sheets, loaded, at, Sheet::Long { next, bytes })?;
    Ok((next, used))
}

// ---- the long pages of values

/// Brings a long page into memory: gives the number of the next page, or 0, and how many bytes of a value the page has.
fn load_long<D: Disk>(
    alloc: Global,
    disk: &mut D,
    cache: &mut PageCache,
    journal: &Journal,
    sheets: &mut Vec<Sheet>,
    loaded: &mut Vec<usize>,
    number: u32,
) -> Result<(u32, usize), KeepFault>
    requires { IsCacheOf (D.disk disk.old) journal.now cache.old }
    ensures long { (top : ℕ) (pages : List StorePage) (next : ℕ) (used : List ℕ) → ShowsStore (D.disk disk.old) journal.now top pages sheets.old.items
        → 3 ≤ number → kind_of_page (map kind_of pages) number ≡ Long next used
        → IfOk result (λ r. (r.0 ≡ next) × (r.1 ≡ length used) × AddsLongs pages sheets.old.items sheets.new.items (number ∷ [])) }
    ensures some { IfOk result (λ r. (1 ≤ r.1) × (r.1 ≤ 4088)) }
    ensures loads { Loads sheets.old.items sheets.new.items loaded.old.items loaded.new.items }
    ensures cache { IsCacheOf (D.disk disk.new) journal.now cache.new }
    ensures same { IsSame (D.disk disk.old) (D.disk disk.new) }
    ensures full { result ≡ Err KeepFault.Full → ⊥ }
    ensures reads { ReadsDisk (D.disk disk.old) (D.disk disk.new) result }
{
    let Ok(found) = page_behind(disk, cache, journal, number) else {
        return Err(KeepFault::Disk);
    };
    let Some(kept) = found else {
        return Err(KeepFault::Memory);
    };
    let Ok(put) = put_long(alloc, cache.page(kept), sheets, loaded, number as usize - 3) else {
        return Err(KeepFault::Memory);
    };
    Ok(put)
}

/// Brings the long pages of a value of so many bytes into memory, from this one on.
fn load_chain<D: Disk>(
    alloc: Global,
    disk: &mut D,
    cache: &mut PageCache,
    journal: &Journal,
    sheets: &mut Vec<Sheet>,
    loaded: &mut Vec<usize>,
    first: u32,
    count: u32,
) -> Result<(), KeepFault>
    requires { IsCacheOf (D.disk disk.old) journal.now cache.old }
    ensures chain { (top : ℕ) (pages : List StorePage) (chain value : List ℕ) → ShowsStore (D.disk disk.old) journal.now top pages sheets.old.items
        → IsChain (map kind_of pages) first chain value → length value ≡ count → OnOk result (AddsLongs pages sheets.old.items sheets.new.items chain) }
    ensures loads { Loads sheets.old.items sheets.new.items loaded.old.items loaded.new.items }
    ensures cache { IsCacheOf (D.disk disk.new) journal.now cache.new }
    ensures same { IsSame (D.disk disk.old) (D.disk disk.new) }
    ensures full { result ≡ Err KeepFault.Full → ⊥ }
    ensures reads { ReadsDisk (D.disk disk.old) (D.disk disk.new) result }
{
    let mut number = first;
    let mut done = 0;
    while done < count as usize {
        match load_long(alloc, disk, cache, journal, sheets, loaded, number) {
            Ok((next, used)) => {
                number = next;
                done += used;
            }
            Err(fault) => return Err(fault),
        }
    }
    Ok(())
}

/// Whether the value of a string's entry stands on long pages.
fn is_far(string: &[u8]) -> bool
    ensures short { (key value : List ℕ) → string.now ≡ item_bytes (Short key value) → result ≡ false }
    ensures far { (key : List ℕ) (count first : ℕ) → string.now ≡ item_bytes (Far key count first) → result ≡ true }
{
    if string.is_empty() {
        return false;
    }
    string[0] != 0
}

/// Brings the long pages of the value of a string's entry into memory, if it has any.
fn load_value<D: Disk>(
    alloc: Global,
    disk: &mut D,
    cache: &mut PageCache,
    journal: &Journal,
    sheets: &mut Vec<Sheet>,
    loaded: &mut Vec<usize>,
    string: &[u8],
) -> Result<(), KeepFault>
    requires { IsCacheOf (D.disk disk.old) journal.now cache.old }
    ensures value { (top : ℕ) (pages : List StorePage) (p : Placed) → ShowsStore (D.disk disk.old) journal.now top pages sheets.old.items
        → IsStringItem p.item → StandsFor (map kind_of pages) p.item p.entry p.chain
        → string.now ≡ item_bytes p.item → OnOk result (AddsLongs pages sheets.old.items sheets.new.items p.chain) }
    ensures loads { Loads sheets.old.items sheets.new.items loaded.old.items loaded.new.items }
    ensures cache { IsCacheOf (D.disk disk.new) journal.now cache.new }
    ensures same { IsSame (D.disk disk.old) (D.disk disk.new) }
    ensures full { result ≡ Err KeepFault.Full → ⊥ }
    ensures reads { ReadsDisk (D.disk disk.old) (D.disk disk.new) result }
{
    if !is_far(string) {
        return Ok(());
    }
    let (first, count) = far_in(string);
    load_chain(alloc, disk, cache, journal, sheets, loaded, first, count)
}

/// Brings the long pages of the values of all entries of a page into memory.
fn load_values<D: Disk>(
    alloc: Global,
    disk: &mut D,
    cache: &mut PageCache,
    journal: &Journal,
    sheets: &mut Vec<Sheet>,
    loaded: &mut Vec<usize>,
    page: &Page,
) -> Result<(), KeepFault>
    requires { IsCacheOf (D.disk disk.old) journal.now cache.old }
    ensures values { (top : ℕ) (pages : List StorePage) (ps : List Placed) → ShowsStore (D.disk disk.old) journal.now top pages sheets.old.items
        → Items ps → Stand (map kind_of pages) ps → page.now ≡ bytes_of ps → OnOk result (AddsLongs pages sheets.old.items sheets.new.items (chains_of ps)) }
    ensures loads { Loads sheets.old.items sheets.new.items loaded.old.items loaded.new.items }
    ensures cache { IsCacheOf (D.disk disk.new) journal.now cache.new }
    ensures same { IsSame (D.disk disk.old) (D.disk disk.new) }
    ensures full { result ≡ Err KeepFault.Full → ⊥ }
    ensures reads { ReadsDisk (D.disk disk.old) (D.disk disk.new) result }
{
    for i in 0..page.count() {
        let Some(string) = page.get(Slot(i as u16)) else {
            unreachable!()
        };
        match load_value(alloc, disk, cache, journal, sheets, loaded, string) {
            Ok(()) => {}
            Err(fault) => return Err(fault),
        }
    }
    Ok(())
}

// ---- pages of entries

/// The page of entries of these bytes, if they are those of one.
fn slotted_of(page: &[u8; 4096]) -> Option<Page>
    ensures slotted { (ss : List (List ℕ)) → Fits ss → page.now ≡ page_bytes ss → result ≡ Some ss }
    ensures some { IfSome result (λ found. Fits found × (page.now ≡ page_bytes found)) }
{
    match Page::read(page) {
        Ok(found) => Some(found),
        Err(_) => None,
    }
}

/// Puts a page of entries at a place where no page was in memory.
fn put_slotted(
    alloc: Global,
    page: Page,
    sheets: &mut Vec<Sheet>,
    loaded: &mut Vec<usize>,
    at: usize,
) -> Result<(), Memory>
    requires { Fits page }
    ensures puts { OnOk result (PutsKind sheets.old.items sheets.new.items at (Slotted page)) }
    ensures loads { Loads sheets.old.items sheets.new.items loaded.old.items loaded.new.items }
{
    let page = Box::new(alloc, page)?;
    put_sheet(sheets, loaded, at, Sheet::Slotted(page))
}

/// The number of the page at a place, where there may be one.
fn number_at_place(at: usize) -> Option<u32>
    ensures number { IfSome result (λ number. number ≡ at + 3) }
    ensures none { at + 3 < 2 ^ 32 → result ≡ None → ⊥ }
{
    u32::try_from(at.checked_add(3)?).ok()
}

/// The same as `load_page`, where no page is in memory at the place; after an error some may have been loaded.
fn load_away<D: Disk>(
    alloc: Global,
    disk: &mut D,
    cache: &mut PageCache,
    journal: &Journal,
    sheets: &mut Vec<Sheet>,
    loaded: &mut Vec<usize>,
    at: usize,
) -> Result<(), KeepFault>
    requires { IsCacheOf (D.disk disk.old) journal.now cache.old }
    ensures loads { Loads sheets.old.items sheets.new.items loaded.old.items loaded.new.items }
    ensures there { (top : ℕ) (pages : List StorePage) (m : Content) (ss : List (List ℕ)) → IsStoreWindow (D.disk disk.old) journal.now top pages m sheets.old.items
        → get_or pages at (Plain Free) ≡ Plain (Slotted ss) → OnOk result (get_or (away_of sheets.new.items) at false ≡ false) }
    ensures window { (top : ℕ) (pages : List StorePage) (m : Content) → IsStoreWindow (D.disk disk.old) journal.now top pages m sheets.old.items
        → OnOk result (IsStoreWindow (D.disk disk.new) journal.now top pages m sheets.new.items) }
    ensures cache { IsCacheOf (D.disk disk.new) journal.now cache.new }
    ensures same { IsSame (D.disk disk.old) (D.disk disk.new) }
    ensures full { result ≡ Err KeepFault.Full → ⊥ }
    ensures reads { ReadsDisk (D.disk disk.old) (D.disk disk.new) result }
{
    let Some(number) = number_at_place(at) else {
        return Err(KeepFault::Memory);
    };
    let Ok(found) = page_behind(disk, cache, journal, number) else {
        return Err(KeepFault::Disk);
    };
    let Some(kept) = found else {
        return Err(KeepFault::Memory);
    };
    let Some(page) = slotted_of(cache.page(kept)) else {
        return Ok(());
    };
    match load_values(alloc, disk, cache, journal, sheets, loaded, &page) {
        Ok(()) => {}
        Err(fault) => return Err(fault),
    }
    let Ok(()) = put_slotted(alloc, page, sheets, loaded, at) else {
        return Err(KeepFault::Memory);
    };
    Ok(())
}

/// Brings the page at a place into memory, if it is one of entries, and the long pages of the values of all its entries. A page of the
/// directory is left away. Each page that is loaded is listed. After an error all is as it was. It reads each of these pages once, and takes
/// the memory that they take. Where the bytes that are read are those of no store, it answers Memory.
pub fn load_page<D: Disk>(
    alloc: Global,
    disk: &mut D,
    cache: &mut PageCache,
    journal: &Journal,
    sheets: &mut Vec<Sheet>,
    loaded: &mut Vec<usize>,
    at: usize,
) -> Result<(), KeepFault>
    requires { IsCacheOf (D.disk disk.old) journal.now cache.old }
    ensures window { (top : ℕ) (pages : List StorePage) (m : Content) → IsStoreWindow (D.disk disk.old) journal.now top pages m sheets.old.items
        → OnOk result (IsStoreWindow (D.disk disk.new) journal.now top pages m sheets.new.items) }
    ensures there { (top : ℕ) (pages : List StorePage) (m : Content) (ss : List (List ℕ)) → IsStoreWindow (D.disk disk.old) journal.now top pages m sheets.old.items
        → get_or pages at (Plain Free) ≡ Plain (Slotted ss) → OnOk result (get_or (away_of sheets.new.items) at false ≡ false) }
    ensures loads { OnOk result (Loads sheets.old.items sheets.new.items loaded.old.items loaded.new.items) }
    ensures back { OnErr result ((sheets.new.items ≡ sheets.old.items) × (loaded.new.items ≡ loaded.old.items)) }
    ensures cache { IsCacheOf (D.disk disk.new) journal.now cache.new }
    ensures same { IsSame (D.disk disk.old) (D.disk disk.new) }
    ensures full { result ≡ Err KeepFault.Full → ⊥ }
    ensures reads { ReadsDisk (D.disk disk.old) (D.disk disk.new) result }
{
    if !is_away_at(sheets, at) {
        return Ok(());
    }
    let count = loaded.len();
    match load_away(alloc, disk, cache, journal, sheets, loaded, at) {
        Ok(()) => Ok(()),
        Err(fault) => {
            unload_behind(sheets, loaded, count);
            Err(fault)
        }
    }
}
