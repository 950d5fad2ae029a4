//! Where the entries of a store without a directory stand, in order of their keys.

ghost use Rattle.std.specs.Prelude.{◌∷◌, [], ◌++◌, ◌≡◌, ◌≤◌, ◌<◌, ◌^◌, ℕ, List, Err, IfOk, OnOk, get_or, length, map};
ghost use Rattle.std.specs.List.Sorted.{IsPermutation, IsSortedByKey};
ghost use Rattle.std.specs.Option.{option_map};
ghost use Rattle.std.specs.Ordering.{nat_cmp};
ghost use Rattle.std.specs.Cmp.Lexicographic.{slice_cmp};
ghost use Rattle.ct_site.specs.Disks.{IsSame};
ghost use Rattle.pg_cache.specs.Caches.{IsCacheOf};
ghost use Rattle.pg_page.specs.Pages.{Fits, page_bytes};
ghost use Rattle.pg_directory.specs.Counting.{places_from, slots_on};
ghost use Rattle.pg_directory.specs.Trees.{StorePage, key_at, page_at, strings_at};
ghost use Rattle.pg_directory.specs.Looking.{DiskHolds};
ghost use Rattle.pg_directory.specs.Fetching.{ReadsDisk};
ghost use Rattle.pg_directory.specs.Noting.{note_of};
ghost use Rattle.pg_directory.specs.OpenStore.{ArePlacesOr};
ghost use Rattle.pg_directory.specs.Placing.{key_on, with_keys, keyed_places, keys_kept, places_kept, rise_in_turn};

use crate::comparing::{is_below, key_of, page_behind};
use crate::entries::EntryAt;
use crate::noting::PageNote;
use ct_base::Memory;
use ct_keep::KeepFault;
use ct_site::Disk;
use pg_cache::PageCache;
use pg_journal::Journal;
use pg_page::string_in;
use std::alloc::Global;

/// The key of an entry, and where the entry stands.
#[derive(Debug, Drop)]
pub(crate) struct KeyPlace {
    pub(crate) key: Vec<u8>,
    pub(crate) at: EntryAt,
}

/// Appends the key at a slot of a page, with its place.
fn put_key(
    alloc: Global,
    page: &[u8; 4096],
    at: EntryAt,
    into: &mut Vec<KeyPlace>,
) -> Result<(), Memory>
    ensures { (ss : List (List ℕ)) → Fits ss → page.now ≡ page_bytes ss → at.slot < length ss → OnOk result (keyed_places into.new.items ≡ keyed_places into.old.items ++ (key_on ss at, at) ∷ []) }
{
    let Some(string) = string_in(page, at.slot as usize) else {
        return Ok(());
    };
    let key = Vec::from_slice(alloc, key_of(string))?;
    into.push(KeyPlace { key, at })?;
    Ok(())
}

/// Appends the keys of a page that has so many strings, with their places.
fn put_keys(
    alloc: Global,
    page: &[u8; 4096],
    number: u32,
    strings: u16,
    into: &mut Vec<KeyPlace>,
) -> Result<(), Memory>
    ensures { (ss : List (List ℕ)) → Fits ss → page.now ≡ page_bytes ss → strings ≡ length ss → OnOk result (keyed_places into.new.items ≡ keyed_places into.old.items ++ with_keys (key_on ss) (slots_on number strings)) }
{
    for slot in 0..strings {
        put_key(alloc, page, EntryAt { page: number, slot }, into)?;
    }
    Ok(())
}

/// Appends the keys of a home page that is noted, with their places. It reads the page if it has strings.
fn put_noted<D: Disk>(
    alloc: Global,
    disk: &mut D,
    cache: &mut PageCache,
    journal: &Journal,
    note: PageNote,
    number: u32,
    into: &mut Vec<KeyPlace>,
) -> Result<(), KeepFault>
    requires { IsCacheOf (D.disk disk.old) journal.now cache.old }
    ensures keys { (top : ℕ) (pages : List StorePage) → DiskHolds (D.disk disk.old) journal.now top pages → note ≡ note_of (page_at pages number) → 3 ≤ number → number < journal.now
        → OnOk result (keyed_places into.new.items ≡ keyed_places into.old.items ++ with_keys (key_at pages) (slots_on number (length (strings_at pages number)))) }
    ensures cache { IsCacheOf (D.disk disk.new) journal.now cache.new }
    ensures same { IsSame (D.disk disk.old) (D.disk disk.new) }
    ensures full { result ≡ Err KeepFault.Full → ⊥ }
    ensures reads { ReadsDisk (D.disk disk.old) (D.disk disk.new) result }
{
    let PageNote::Slotted { strings } = note else {
        return Ok(());
    };
    let Ok(found) = page_behind(disk, cache, journal, number) else {
        return Err(KeepFault::Disk);
    };
    let Some(kept) = found else {
        return Ok(());
    };
    let Ok(()) = put_keys(alloc, cache.page(kept), number, strings, into) else {
        return Err(KeepFault::Memory);
    };
    Ok(())
}

/// The keys of all pages that are noted, with their places, page by page.
fn keys_of_pages<D: Disk>(
    alloc: Global,
    disk: &mut D,
    cache: &mut PageCache,
    journal: &Journal,
    notes: &[PageNote],
) -> Result<Vec<KeyPlace>, KeepFault>
    requires few { length notes.now < 2 ^ 31 }
    requires cache { IsCacheOf (D.disk disk.old) journal.now cache.old }
    ensures keys { (top : ℕ) (pages : List StorePage) → DiskHolds (D.disk disk.old) journal.now top pages → notes.now ≡ map note_of pages
        → IfOk result (λ keys. keyed_places keys.items ≡ with_keys (key_at pages) (places_from 3 pages)) }
    ensures cache { IsCacheOf (D.disk disk.new) journal.now cache.new }
    ensures same { IsSame (D.disk disk.old) (D.disk disk.new) }
    ensures full { result ≡ Err KeepFault.Full → ⊥ }
    ensures reads { ReadsDisk (D.disk disk.old) (D.disk disk.new) result }
{
    let mut keys = Vec::new(alloc);
    for i in 0..notes.len() {
        match put_noted(
            alloc,
            disk,
            cache,
            journal,
            notes[i],
            3 + i as u32,
            &mut keys,
        ) {
            Ok(()) => {}
            Err(fault) => return Err(fault),
        }
    }
    Ok(keys)
}

/// Puts keys in order. It takes no memory.
fn sort_keys(keys: &mut Vec<KeyPlace>)
    ensures permutation { IsPermutation keys.old.items keys.new.items }
    ensures sorted { IsSortedByKey (λ k. k.key.items) (slice_cmp nat_cmp) keys.new.items }
{
    keys.sort_unstable_by(|a, b| a.key.as_slice().cmp(b.key.as_slice()));
}

/// Whether each key is less than the next one.
fn are_rising(keys: &[KeyPlace]) -> bool
    ensures { result ≡ rise_in_turn (keys_kept keys.now) }
{
    let mut rest = keys;
    while let [first, later @ ..] = rest {
        let [second, ..] = later else {
            return true;
        };
        if !is_below(&first.key, &second.key) {
            return false;
        }
        rest = later;
    }
    true
}

/// The places of keys.
fn places_of(alloc: Global, keys: &[KeyPlace]) -> Result<Vec<EntryAt>, Memory>
    ensures { IfOk result (λ places. places.items ≡ places_kept keys.now) }
{
    let mut places = Vec::new(alloc);
    for key in keys {
        places.push(key.at)?;
    }
    Ok(places)
}

/// The places of all strings of pages that are noted, in order of their keys. It reads each page that has strings; each key is in memory
/// meanwhile. None exactly where two have one key, so that no map is laid out on the pages.
pub fn places_in_order<D: Disk>(
    alloc: Global,
    disk: &mut D,
    cache: &mut PageCache,
    journal: &Journal,
    notes: &[PageNote],
) -> Result<Option<Vec<EntryAt>>, KeepFault>
    requires few { length notes.now < 2 ^ 31 }
    requires cache { IsCacheOf (D.disk disk.old) journal.now cache.old }
    ensures places { (top : ℕ) (pages : List StorePage) → DiskHolds (D.disk disk.old) journal.now top pages → notes.now ≡ map note_of pages
        → IfOk result (λ found. ArePlacesOr (option_map (λ v. v.items) found) pages) }
    ensures cache { IsCacheOf (D.disk disk.new) journal.now cache.new }
    ensures same { IsSame (D.disk disk.old) (D.disk disk.new) }
    ensures full { result ≡ Err KeepFault.Full → ⊥ }
    ensures reads { ReadsDisk (D.disk disk.old) (D.disk disk.new) result }
{
    let mut keys = match keys_of_pages(alloc, disk, cache, journal, notes) {
        Ok(keys) => keys,
        Err(fault) => return Err(fault),
    };
    sort_keys(&mut keys);
    if !are_rising(&keys) {
        return Ok(None);
    }
    let Ok(places) = places_of(alloc, &keys) else {
        return Err(KeepFault::Memory);
    };
    Ok(Some(places))
}
