//! The edits of a directory that a batch asks for.

ghost use Rattle.std.specs.Prelude.{◌≡◌, ◌≤◌, ◌<◌, ◌+◌, ℕ, true, Err, IfOk, IfSome, OnOk, Some, List, [], ◌∷◌, length, get_or, map, option_copied};
ghost use Rattle.std.specs.Option.{option_map};
ghost use Rattle.std.specs.List.{Contains};
ghost use Rattle.std.specs.BTreeMap.{IsOrdered};
ghost use Rattle.std.specs.FinMap.{insert};
ghost use Rattle.ct_site.specs.Disks.{IsSame};
ghost use Rattle.ct_keep.specs.Content.{Content};
ghost use Rattle.ct_keep.specs.EntryKeys.{entry_key_order};
ghost use Rattle.ct_keep.specs.SeenChanges.{change_of};
ghost use Rattle.pg_page.specs.Pages.{number_at};
ghost use Rattle.pg_map.specs.Done.{IsDone};
ghost use Rattle.pg_map.specs.Kinds.{strings_of};
ghost use Rattle.pg_map.specs.PageStrings.{string_key};
ghost use Rattle.pg_cache.specs.Caches.{IsCacheOf, bytes_at};
ghost use Rattle.pg_directory.specs.Fetching.{ReadsDisk};
ghost use Rattle.pg_directory.specs.Looking.{DiskHolds};
ghost use Rattle.pg_directory.specs.Trees.{StorePage};
ghost use Rattle.pg_window.specs.Sheets.{sheet_kind};
ghost use Rattle.pg_leaves.specs.Editing.{edits_of};
ghost use Rattle.pg_change.specs.KeyEdits.{AreEditsOf};
ghost use Rattle.pg_change.specs.NotedEdits.{edit_map, edits_seen, with_edits, gone_edits};
ghost use Rattle.pg_change.specs.Unmoved.{HasKeyIn, HadKeyIn, IsNotedUnlessThere, AreSlotsNoted, IsPageNoted, ArePagesNoted};

use ct_base::Memory;
use ct_keep::{Change, EntryKey, KeepFault};
use ct_site::Disk;
use pg_cache::PageCache;
use pg_directory::{EntryAt, key_of, page_behind};
use pg_journal::Journal;
use pg_leaves::Edit;
use pg_page::{Page, Slot, string_in};
use pg_plan::Draft;
use pg_window::Sheet;
use std::alloc::Global;
use std::collections::BTreeMap;

/// Notes what becomes of a key, in place of what was noted of it before.
fn note(
    edits: &mut BTreeMap<EntryKey, Option<EntryAt>>,
    key: Vec<u8>,
    place: Option<EntryAt>,
) -> Result<(), Memory>
    ensures ordered { IsOrdered entry_key_order edits.new }
    ensures noted { OnOk result (edit_map edits.new.entries ≡ insert (edit_map edits.old.entries) key.items place) }
{
    edits.insert(EntryKey::of(key), place)?;
    Ok(())
}

/// Notes that the key of a change has no entry, if the change takes it away.
fn note_change(
    alloc: Global,
    edits: &mut BTreeMap<EntryKey, Option<EntryAt>>,
    change: &Change,
) -> Result<(), Memory>
    ensures ordered { IsOrdered entry_key_order edits.old → IsOrdered entry_key_order edits.new }
    ensures noted { OnOk result (edit_map edits.new.entries ≡ with_edits (gone_edits (change_of change.now ∷ [])) (edit_map edits.old.entries)) }
{
    match &change.value {
        Some(_) => Ok(()),
        None => {
            let key = Vec::from_slice(alloc, &change.key)?;
            note(edits, key, None)
        }
    }
}

/// Notes each key whose entry changes take away.
fn note_changes(
    alloc: Global,
    edits: &mut BTreeMap<EntryKey, Option<EntryAt>>,
    changes: &[Change],
) -> Result<(), Memory>
    ensures ordered { IsOrdered entry_key_order edits.old → IsOrdered entry_key_order edits.new }
    ensures noted { OnOk result (edit_map edits.new.entries ≡ with_edits (gone_edits (map change_of changes.now)) (edit_map edits.old.entries)) }
{
    let mut rest = changes;
    while let [change, later @ ..] = rest {
        note_change(alloc, edits, change)?;
        rest = later;
    }
    Ok(())
}

/// How many strings the head of a page of entries says that it has.
fn string_count(page: &[u8; 4096]) -> u16
    ensures { result ≡ number_at page.now 2 }
{
    u16::from_be_bytes([page[2], page[3]])
}

/// Whether a page is one of entries, of which the one in this slot has this key.
fn has_key_in(page: &[u8; 4096], slot: u16, key: &[u8]) -> bool
    ensures { result ≡ true → HasKeyIn page.now slot key.now }
{
    if page[0] != 1 || slot >= string_count(page) {
        return false;
    }
    match string_in(page, slot as usize) {
        Some(string) => key_of(string) == key,
        None => false,
    }
}

/// The same of a page that may be none.
fn had_key_in(page: Option<&[u8; 4096]>, slot: u16, key: &[u8]) -> bool
    ensures { result ≡ true → HadKeyIn (option_copied page.entry) slot key.now }
{
    match page {
        Some(page) => has_key_in(page, slot, key),
        None => false,
    }
}

/// Notes where a string of a page stands, unless its key stood in the same slot of the page as it was before.
fn note_string(
    alloc: Global,
    edits: &mut BTreeMap<EntryKey, Option<EntryAt>>,
    before: Option<&[u8; 4096]>,
    page: &Page,
    at: EntryAt,
) -> Result<(), Memory>
    requires { at.slot < length page.now }
    ensures ordered { IsOrdered entry_key_order edits.old → IsOrdered entry_key_order edits.new }
    ensures noted { OnOk result (IsNotedUnlessThere (option_copied before.entry) at (string_key (get_or page.now at.slot [])) (edit_map edits.old.entries) (edit_map edits.new.entries)) }
{
    let Some(string) = page.get(Slot(at.slot)) else {
        return Ok(());
    };
    let key = key_of(string);
    if had_key_in(before, at.slot, key) {
        return Ok(());
    }
    let key = Vec::from_slice(alloc, key)?;
    note(edits, key, Some(at))
}

/// Notes where each string of a page stands, unless its key stood there on the page as it was before.
fn note_strings(
    alloc: Global,
    edits: &mut BTreeMap<EntryKey, Option<EntryAt>>,
    before: Option<&[u8; 4096]>,
    number: u32,
    page: &Page,
) -> Result<(), Memory>
    ensures ordered { IsOrdered entry_key_order edits.old → IsOrdered entry_key_order edits.new }
    ensures noted { OnOk result (AreSlotsNoted (option_copied before.entry) number page.now (length page.now) (edit_map edits.old.entries) (edit_map edits.new.entries)) }
{
    for slot in 0..page.count() {
        let at = EntryAt {
            page: number,
            slot: slot as u16,
        };
        note_string(alloc, edits, before, page, at)?;
    }
    Ok(())
}

/// Notes where each string of a page stands, unless its key stood there on the page that was found in a place of the cache.
fn note_found(
    alloc: Global,
    cache: &PageCache,
    edits: &mut BTreeMap<EntryKey, Option<EntryAt>>,
    found: Option<usize>,
    number: u32,
    page: &Page,
) -> Result<(), Memory>
    requires { IfSome found (λ at. at < length cache.now) }
    ensures ordered { IsOrdered entry_key_order edits.old → IsOrdered entry_key_order edits.new }
    ensures noted { OnOk result (AreSlotsNoted (option_map (bytes_at cache.now) found) number page.now (length page.now) (edit_map edits.old.entries) (edit_map edits.new.entries)) }
{
    match found {
        Some(kept) => note_strings(alloc, edits, Some(cache.page(kept)), number, page),
        None => note_strings(alloc, edits, None, number, page),
    }
}

/// Notes where each string of a page stands, if it has some, unless its key stands there on the disk. It reads the page as the disk has it.
fn note_sheet<D: Disk>(
    alloc: Global,
    disk: &mut D,
    cache: &mut PageCache,
    journal: &Journal,
    edits: &mut BTreeMap<EntryKey, Option<EntryAt>>,
    number: u32,
    sheet: &Sheet,
) -> Result<(), KeepFault>
    requires { IsCacheOf (D.disk disk.old) journal.now cache.old }
    ensures ordered { IsOrdered entry_key_order edits.old → IsOrdered entry_key_order edits.new }
    ensures noted { (top : ℕ) (pages : List StorePage) → DiskHolds (D.disk disk.old) journal.now top pages → 3 ≤ number
        → OnOk result (IsPageNoted pages number (strings_of (sheet_kind sheet.now ∷ [])) (edit_map edits.old.entries) (edit_map edits.new.entries)) }
    ensures cache { IsCacheOf (D.disk disk.new) journal.now cache.new }
    ensures same { IsSame (D.disk disk.old) (D.disk disk.new) }
    ensures full { result ≡ Err KeepFault.Full → ⊥ }
    ensures reads { ReadsDisk (D.disk disk.old) (D.disk disk.new) result }
{
    let Sheet::Slotted(page) = sheet else {
        return Ok(());
    };
    let Ok(found) = page_behind(disk, cache, journal, number) else {
        return Err(KeepFault::Disk);
    };
    let Ok(()) = note_found(alloc, cache, edits, found, number, page) else {
        return Err(KeepFault::Memory);
    };
    Ok(())
}

/// Notes where each string of the pages of these numbers stands, unless its key stands there on the disk.
fn note_pages<D: Disk>(
    alloc: Global,
    disk: &mut D,
    cache: &mut PageCache,
    journal: &Journal,
    edits: &mut BTreeMap<EntryKey, Option<EntryAt>>,
    draft: &Draft,
    numbers: &[u32],
) -> Result<(), KeepFault>
    requires within { (n : ℕ) → Contains numbers.now n → (3 ≤ n) × (n < 3 + length draft.now.now) }
    requires cache { IsCacheOf (D.disk disk.old) journal.now cache.old }
    ensures ordered { IsOrdered entry_key_order edits.old → IsOrdered entry_key_order edits.new }
    ensures noted { (top : ℕ) (pages : List StorePage) → DiskHolds (D.disk disk.old) journal.now top pages
        → OnOk result (ArePagesNoted pages draft.now.now numbers.now (edit_map edits.old.entries) (edit_map edits.new.entries)) }
    ensures cache { IsCacheOf (D.disk disk.new) journal.now cache.new }
    ensures same { IsSame (D.disk disk.old) (D.disk disk.new) }
    ensures full { result ≡ Err KeepFault.Full → ⊥ }
    ensures reads { ReadsDisk (D.disk disk.old) (D.disk disk.new) result }
{
    let mut rest = numbers;
    while let [number, later @ ..] = rest {
        let sheet = draft.sheet(*number as usize - 3);
        match note_sheet(alloc, disk, cache, journal, edits, *number, sheet) {
            Ok(()) => {}
            Err(fault) => return Err(fault),
        }
        rest = later;
    }
    Ok(())
}

/// The edits that are noted, in order of their keys. It takes no memory but that of the list.
fn listed(alloc: Global, edits: BTreeMap<EntryKey, Option<EntryAt>>) -> Result<Vec<Edit>, Memory>
    ensures { IfOk result (λ list. edits_of list.items ≡ edits_seen edits.entries) }
{
    let mut list = Vec::new(alloc);
    for (key, place) in edits {
        let key = key.into_bytes();
        list.push(Edit { key, place })?;
    }
    Ok(list)
}

/// The edits that the changes of a batch ask for, in order of key, where the pages of the draft are those after the batch and these are the
/// numbers of those that it touched, and the disk has the pages before: each string of the touched pages whose key doesn't stand in the same
/// slot on the disk stands where it stands now, and the entry of a key that a change takes away is gone. It reads each of these pages once, in
/// memory and as the disk has it, and takes memory for a copy of each key that it gives, a tree of them and the list.
pub fn key_edits<D: Disk>(
    alloc: Global,
    disk: &mut D,
    cache: &mut PageCache,
    journal: &Journal,
    draft: &Draft,
    numbers: &[u32],
    changes: &[Change],
) -> Result<Vec<Edit>, KeepFault>
    requires within { (n : ℕ) → Contains numbers.now n → (3 ≤ n) × (n < 3 + length draft.now.now) }
    requires cache { IsCacheOf (D.disk disk.old) journal.now cache.old }
    ensures edits { (top : ℕ) (pages : List StorePage) (m : Content) → DiskHolds (D.disk disk.old) journal.now top pages → IsDone draft.now.now m
        → IfOk result (λ edits. AreEditsOf pages draft.now.now numbers.now (map change_of changes.now) (edits_of edits.items)) }
    ensures cache { IsCacheOf (D.disk disk.new) journal.now cache.new }
    ensures same { IsSame (D.disk disk.old) (D.disk disk.new) }
    ensures full { result ≡ Err KeepFault.Full → ⊥ }
    ensures reads { ReadsDisk (D.disk disk.old) (D.disk disk.new) result }
{
    let mut edits = BTreeMap::new(alloc);
    let Ok(()) = note_changes(alloc, &mut edits, changes) else {
        return Err(KeepFault::Memory);
    };
    match note_pages(alloc, disk, cache, journal, &mut edits, draft, numbers) {
        Ok(()) => {}
        Err(fault) => return Err(fault),
    }
    let Ok(list) = listed(alloc, edits) else {
        return Err(KeepFault::Memory);
    };
    Ok(list)
}
