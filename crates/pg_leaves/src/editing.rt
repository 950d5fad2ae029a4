//! The places that a leaf names, after edits of keys.

ghost use Rattle.std.specs.Prelude.{◌≡◌, ◌≤◌, ◌<◌, ◌+◌, ◌-◌, ◌++◌, ℕ, List, [], Some, Err, IfOk, OnOk, IfSome, length, get_or, take};
ghost use Rattle.ct_site.specs.Disks.{IsSame, Works};
ghost use Rattle.pg_page.specs.Pages.{Fits, page_bytes};
ghost use Rattle.pg_map.specs.PageStrings.{string_key};
ghost use Rattle.pg_cache.specs.Caches.{IsCacheOf};
ghost use Rattle.pg_directory.specs.Fetching.{ReadsDisk};
ghost use Rattle.pg_directory.specs.Looking.{DiskHolds};
ghost use Rattle.pg_directory.specs.Trees.{StorePage, key_at, HasString};
ghost use Rattle.pg_leaves.specs.Editing.{edits_of, places_edited};
ghost use Rattle.pg_leaves.specs.Finding.{places_given, IsGapAt, OverPlaces, IsGapOfOr, IsKeyOr, PutsEdit};

use crate::edits::Edit;
use crate::finding::is_before;
use ct_base::Memory;
use ct_keep::KeepFault;
use ct_site::{Disk, Failed};
use pg_cache::PageCache;
use pg_directory::{EntryAt, key_of, page_behind, rank_among};
use pg_journal::Journal;
use pg_page::string_in;
use std::alloc::Global;

/// Whether a key is this one.
fn has_bytes(own: &[u8], key: &[u8]) -> bool
    ensures { IsKeyOr (Some result) own.now key.now }
{
    own == key
}

/// Whether the entry of a slot has this key, on the page of these bytes; None only where it has no such entry.
fn is_key_on(page: &[u8; 4096], slot: u16, key: &[u8]) -> Option<bool>
    ensures { (ss : List (List ℕ)) → Fits ss → page.now ≡ page_bytes ss → slot < length ss → IsKeyOr result (string_key (get_or ss slot [])) key.now }
{
    let string = string_in(page, slot as usize)?;
    Some(has_bytes(key_of(string), key))
}

/// Whether the entry at a place has this key; None only where there is no such entry.
fn has_key<D: Disk>(
    disk: &mut D,
    cache: &mut PageCache,
    journal: &Journal,
    at: EntryAt,
    key: &[u8],
) -> Result<Option<bool>, Failed>
    requires { IsCacheOf (D.disk disk.old) journal.now cache.old }
    ensures key { (top : ℕ) (pages : List StorePage) → DiskHolds (D.disk disk.old) journal.now top pages → HasString pages at
        → IfOk result (λ found. IsKeyOr found (key_at pages at) key.now) }
    ensures cache { IsCacheOf (D.disk disk.new) journal.now cache.new }
    ensures same { IsSame (D.disk disk.old) (D.disk disk.new) }
    ensures works { Works (D.disk disk.old) (D.disk disk.new) result }
{
    let Some(kept) = page_behind(disk, cache, journal, at.page)? else {
        return Ok(None);
    };
    Ok(is_key_on(cache.page(kept), at.slot, key))
}

/// How many of the places have keys below this one, and how many have keys that are at most this one, by the latter number and whether the
/// last of these has just this key.
fn gap_at(rank: usize, is_there: bool) -> (usize, usize)
    requires { 1 ≤ rank }
    ensures gap { IsGapAt is_there rank result.0 result.1 }
    ensures order { result.0 ≤ result.1 }
    ensures within { result.1 ≤ rank }
{
    if is_there {
        (rank - 1, rank)
    } else {
        (rank, rank)
    }
}

/// How many of the places have keys below this one, and how many have keys that are at most this one. It first looks whether the key comes before
/// all of them, as the next one of several edits often does; else it compares the keys of the logarithm of their number. None only where the bytes
/// that are read are those of no store.
fn gap_among<D: Disk>(
    disk: &mut D,
    cache: &mut PageCache,
    journal: &Journal,
    places: &[EntryAt],
    key: &[u8],
) -> Result<Option<(usize, usize)>, Failed>
    requires { IsCacheOf (D.disk disk.old) journal.now cache.old }
    ensures gap { OverPlaces (D.disk disk.old) journal.now places.now result (λ pages found. IsGapOfOr found pages places.now key.now) }
    ensures within { IfOk result (λ found. IfSome found (λ gap. (gap.0 ≤ gap.1) × (gap.1 ≤ length places.now))) }
    ensures cache { IsCacheOf (D.disk disk.new) journal.now cache.new }
    ensures same { IsSame (D.disk disk.old) (D.disk disk.new) }
    ensures works { Works (D.disk disk.old) (D.disk disk.new) result }
{
    let Some(is_first) = is_before(disk, cache, journal, places, key)? else {
        return Ok(None);
    };
    if is_first {
        return Ok(Some((0, 0)));
    }
    let Some(rank) = rank_among(disk, cache, journal, places, key)? else {
        return Ok(None);
    };
    if rank == 0 {
        return Ok(Some((0, 0)));
    }
    let Some(is_there) = has_key(disk, cache, journal, places[rank - 1], key)? else {
        return Ok(None);
    };
    Ok(Some(gap_at(rank, is_there)))
}

/// Appends the places below the key of an edit, and then its own, if it has one.
fn put_places(
    places: &[EntryAt],
    below: usize,
    place: Option<EntryAt>,
    into: &mut Vec<EntryAt>,
) -> Result<(), Memory>
    requires { below ≤ length places.now }
    ensures { OnOk result (into.new.items ≡ into.old.items ++ (take below places.now ++ places_given place)) }
{
    into.extend_from_slice(&places[..below])?;
    if let Some(at) = place {
        into.push(at)?;
    }
    Ok(())
}

/// Appends the places below the key of an edit, and then its own, if it has one. It gives how many of the places have keys that are at most
/// this one. Where the bytes that are read are those of no store, it answers Memory.
fn put_edit<D: Disk>(
    disk: &mut D,
    cache: &mut PageCache,
    journal: &Journal,
    places: &[EntryAt],
    edit: &Edit,
    into: &mut Vec<EntryAt>,
) -> Result<usize, KeepFault>
    requires { IsCacheOf (D.disk disk.old) journal.now cache.old }
    ensures put { OverPlaces (D.disk disk.old) journal.now places.now result (λ pages most. PutsEdit pages places.now edit.now into.old.items into.new.items most) }
    ensures within { IfOk result (λ most. most ≤ length places.now) }
    ensures few { IfOk result (λ most. length into.new.items + (length places.now - most) ≤ length into.old.items + length places.now + 1) }
    ensures cache { IsCacheOf (D.disk disk.new) journal.now cache.new }
    ensures same { IsSame (D.disk disk.old) (D.disk disk.new) }
    ensures full { result ≡ Err KeepFault.Full → ⊥ }
    ensures reads { ReadsDisk (D.disk disk.old) (D.disk disk.new) result }
{
    let Ok(found) = gap_among(disk, cache, journal, places, &edit.key) else {
        return Err(KeepFault::Disk);
    };
    let Some(gap) = found else {
        return Err(KeepFault::Memory);
    };
    let Ok(()) = put_places(places, gap.0, edit.place, into) else {
        return Err(KeepFault::Memory);
    };
    Ok(gap.1)
}

/// The places that a leaf names which named these, after the edits of its keys. For each edit it compares the keys of the logarithm of the
/// number of places; one, where several edits come between the same two of them. It takes eight bytes a place.
pub(crate) fn edit_places<D: Disk>(
    alloc: Global,
    disk: &mut D,
    cache: &mut PageCache,
    journal: &Journal,
    places: &[EntryAt],
    edits: &[Edit],
) -> Result<Vec<EntryAt>, KeepFault>
    requires { IsCacheOf (D.disk disk.old) journal.now cache.old }
    ensures edited { OverPlaces (D.disk disk.old) journal.now places.now result (λ pages all. all.items ≡ places_edited pages places.now (edits_of edits.now)) }
    ensures few { IfOk result (λ all. length all.items ≤ length places.now + length edits.now) }
    ensures cache { IsCacheOf (D.disk disk.new) journal.now cache.new }
    ensures same { IsSame (D.disk disk.old) (D.disk disk.new) }
    ensures full { result ≡ Err KeepFault.Full → ⊥ }
    ensures reads { ReadsDisk (D.disk disk.old) (D.disk disk.new) result }
{
    let mut all = Vec::new(alloc);
    let mut done = 0;
    for i in 0..edits.len() {
        let rest = &places[done..];
        let most = match put_edit(disk, cache, journal, rest, &edits[i], &mut all) {
            Ok(most) => most,
            Err(fault) => return Err(fault),
        };
        done += most;
    }
    let Ok(()) = all.extend_from_slice(&places[done..]) else {
        return Err(KeepFault::Memory);
    };
    Ok(all)
}
