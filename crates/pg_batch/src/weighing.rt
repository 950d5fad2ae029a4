//! What a map weighs after some changes.

ghost use Rattle.std.specs.Prelude.{◌≡◌, ◌<◌, ◌^◌, ℕ, List, Err, IfOk, map};
ghost use Rattle.ct_site.specs.Disks.{IsSame};
ghost use Rattle.ct_keep.specs.Content.{Content, after, changes_weight, value_weight, weight};
ghost use Rattle.ct_keep.specs.SeenChanges.{change_of};
ghost use Rattle.pg_cache.specs.Caches.{IsCacheOf};
ghost use Rattle.pg_directory.specs.Fetching.{ReadsDisk};
ghost use Rattle.pg_directory.specs.Looking.{DiskHolds};
ghost use Rattle.pg_directory.specs.Trees.{StorePage};
ghost use Rattle.pg_batch.specs.ByKey.{KeysRise};
ghost use Rattle.pg_batch.specs.Weights.{old_weight, WeighsOne, WeighsOld};

use crate::strings::{page_of, weight_on};
use ct_keep::{Change, KeepFault};
use ct_site::Disk;
use pg_cache::PageCache;
use pg_directory::EntryAt;
use pg_journal::Journal;

/// What the entry at a place weighs; nothing where there is none. It reads the entry's page.
fn weight_at<D: Disk>(
    disk: &mut D,
    cache: &mut PageCache,
    journal: &Journal,
    place: Option<EntryAt>,
) -> Result<u64, KeepFault>
    requires { IsCacheOf (D.disk disk.old) journal.now cache.old }
    ensures weight { (top : ℕ) (pages : List StorePage) → DiskHolds (D.disk disk.old) journal.now top pages → IfOk result (λ weight. WeighsOne weight pages place) }
    ensures cache { IsCacheOf (D.disk disk.new) journal.now cache.new }
    ensures same { IsSame (D.disk disk.old) (D.disk disk.new) }
    ensures full { result ≡ Err KeepFault.Full → ⊥ }
    ensures reads { ReadsDisk (D.disk disk.old) (D.disk disk.new) result }
{
    let Some(at) = place else {
        return Ok(0);
    };
    let Ok(page) = page_of(disk, cache, journal, at) else {
        return Err(KeepFault::Disk);
    };
    let Some(page) = page else {
        return Err(KeepFault::Memory);
    };
    match weight_on(cache.page(page), at.slot) {
        Some(weight) => Ok(weight),
        None => Err(KeepFault::Memory),
    }
}

/// What the entries of the keys of some changes weigh together, by their places. It reads the page of each entry, and no value; it takes no
/// memory. There are fewer than 2^64 places, and each weight fits into 64 bits: so their sum fits into 128. Where the bytes that are read are
/// those of no store, it answers Memory.
pub fn old_weights<D: Disk>(
    disk: &mut D,
    cache: &mut PageCache,
    journal: &Journal,
    places: &[Option<EntryAt>],
) -> Result<u128, KeepFault>
    requires { IsCacheOf (D.disk disk.old) journal.now cache.old }
    ensures weight { (top : ℕ) (pages : List StorePage) → DiskHolds (D.disk disk.old) journal.now top pages → IfOk result (λ total. WeighsOld total pages places.now) }
    ensures cache { IsCacheOf (D.disk disk.new) journal.now cache.new }
    ensures same { IsSame (D.disk disk.old) (D.disk disk.new) }
    ensures full { result ≡ Err KeepFault.Full → ⊥ }
    ensures reads { ReadsDisk (D.disk disk.old) (D.disk disk.new) result }
{
    let mut total: u128 = 0;
    for i in 0..places.len() {
        let weight = match weight_at(disk, cache, journal, places[i]) {
            Ok(weight) => weight,
            Err(fault) => return Err(fault),
        };
        total += weight as u128;
    }
    Ok(total)
}

/// What the entry that a change puts weighs, if it puts one.
fn new_weight(change: &Change) -> u64
    ensures { result ≡ value_weight (change_of change.now).0 (change_of change.now).1 }
{
    match &change.value {
        Some(value) => (change.key.len() as u64 + value.len() as u64).max(64),
        None => 0,
    }
}

/// What the entries that some changes put weigh together. There are fewer than 2^63 changes, and each weight fits into 64 bits.
fn new_weights(changes: &[Change]) -> u128
    ensures weight { result ≡ changes_weight (map change_of changes.now) }
    ensures small { result < 2 ^ 127 }
{
    let mut total: u128 = 0;
    for change in changes {
        total += new_weight(change) as u128;
    }
    total
}

/// What a map weighs after some changes whose keys rise, by what it weighs before them and what the entries weigh that they replace. The sum fits
/// into 128 bits, as what is put weighs less than 2^127. Where it is at most the limit of a keeper, or at most the weight before, it fits into 64.
pub fn weight_after(total: u64, old: u128, changes: &[Change]) -> u128
    ensures { (m : Content) → KeysRise (map change_of changes.now) → total ≡ weight m → old ≡ old_weight (map change_of changes.now) m → result ≡ weight (after (map change_of changes.now) m) }
{
    (total as u128 + new_weights(changes)).saturating_sub(old)
}
