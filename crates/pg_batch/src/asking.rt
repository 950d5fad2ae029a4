//! What a batch asks for: its changes by their keys, where the entries stand that they replace, and what the map weighs afterwards.

ghost use Rattle.std.specs.Prelude.{◌≡◌, ◌⊎◌, ◌≤◌, ◌<◌, ◌^◌, ℕ, List, Err, IfOk, OnOk, length, map};
ghost use Rattle.ct_site.specs.Disks.{IsSame};
ghost use Rattle.ct_keep.specs.Content.{Content, after, weight};
ghost use Rattle.ct_keep.specs.KeeperViews.{PassesLimit};
ghost use Rattle.ct_keep.specs.SeenChanges.{change_of};
ghost use Rattle.pg_cache.specs.Caches.{IsCacheOf};
ghost use Rattle.pg_map.specs.Holding.{IsLayout};
ghost use Rattle.pg_directory.specs.Fetching.{ReadsDisk};
ghost use Rattle.pg_directory.specs.Looking.{DiskHolds};
ghost use Rattle.pg_directory.specs.Trees.{StorePage, kind_of};
ghost use Rattle.pg_batch.specs.Asking.{IsAsked};
ghost use Rattle.pg_batch.specs.ByKey.{AreByKey};
ghost use Rattle.pg_batch.specs.Places.{FindsAll};

use crate::ordering::by_key;
use crate::placing::places_of;
use crate::weighing::{old_weights, weight_after};
use ct_keep::{Batch, Change, KeepFault};
use ct_site::Disk;
use pg_cache::PageCache;
use pg_directory::EntryAt;
use pg_journal::Journal;
use std::alloc::Global;

/// The changes of a batch by their keys, the place of the entry that each of these has, if it has one, and what the map weighs afterwards.
#[derive(Drop)]
pub struct Asked {
    pub changes: Vec<Change>,
    pub places: Vec<Option<EntryAt>>,
    pub total: u64,
}

/// A weight that the map may have: one that is within the limit, or no greater than the one before. For one that has no room in eight
/// bytes it answers Memory: no store weighs so much.
fn weight_within(now: u128, before: u64, limit: u64) -> Result<u64, KeepFault>
    ensures is { IfOk result (λ weight. weight ≡ now) }
    ensures within { OnOk result ((now ≤ limit) ⊎ (now ≤ before)) }
    ensures over { result ≡ Err KeepFault.Full → limit < now }
    ensures heavier { result ≡ Err KeepFault.Full → before < now }
    ensures fits { result ≡ Err KeepFault.Full → now < 2 ^ 64 }
    ensures disk { result ≡ Err KeepFault.Disk → ⊥ }
{
    if now <= limit as u128 || now <= before as u128 {
        return Ok(now as u64);
    }
    if now > u64::MAX as u128 {
        return Err(KeepFault::Memory);
    }
    Err(KeepFault::Full)
}

/// Looks up what a batch asks for, in a map that weighs `total`, found through the directory whose top is the page of a number. Full exactly
/// where the map would weigh more than the limit, and more than before. It reads what `places_of` reads, and the page of each entry that it
/// finds; it takes memory for a list of the changes.
pub fn ask<D: Disk>(
    alloc: Global,
    disk: &mut D,
    cache: &mut PageCache,
    journal: &Journal,
    top: u32,
    total: u64,
    batch: Batch,
    limit: u64,
) -> Result<Asked, KeepFault>
    requires { IsCacheOf (D.disk disk.old) journal.now cache.old }
    ensures by_key { IfOk result (λ asked. AreByKey batch (map change_of asked.changes.items)) }
    ensures count { IfOk result (λ asked. length asked.places.items ≡ length asked.changes.items) }
    ensures asked { (pages : List StorePage) (m : Content) → DiskHolds (D.disk disk.old) journal.now top pages → FindsAll pages top → IsLayout (map kind_of pages) m → total ≡ weight m
        → IfOk result (IsAsked pages m batch limit) }
    ensures full { (pages : List StorePage) (m : Content) → DiskHolds (D.disk disk.old) journal.now top pages → FindsAll pages top → IsLayout (map kind_of pages) m → total ≡ weight m
        → result ≡ Err KeepFault.Full → PassesLimit limit m (after batch m) × (weight (after batch m) < 2 ^ 64) }
    ensures cache { IsCacheOf (D.disk disk.new) journal.now cache.new }
    ensures same { IsSame (D.disk disk.old) (D.disk disk.new) }
    ensures reads { ReadsDisk (D.disk disk.old) (D.disk disk.new) result }
{
    let Ok(changes) = by_key(alloc, batch) else {
        return Err(KeepFault::Memory);
    };
    let places = match places_of(alloc, disk, cache, journal, top, &changes) {
        Ok(places) => places,
        Err(fault) => return Err(fault),
    };
    let old = match old_weights(disk, cache, journal, &places) {
        Ok(old) => old,
        Err(fault) => return Err(fault),
    };
    match weight_within(weight_after(total, old, &changes), total, limit) {
        Ok(total) => Ok(Asked {
            changes,
            places,
            total,
        }),
        Err(fault) => Err(fault),
    }
}
