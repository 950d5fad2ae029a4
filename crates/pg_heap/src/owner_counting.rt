//! How many entries of a store each owner has.

ghost use Rattle.std.specs.Prelude.{◌≡◌, ℕ, List, Err, IfOk, map};
ghost use Rattle.ct_site.specs.Disks.{IsSame};
ghost use Rattle.ct_keep.specs.Content.{Content};
ghost use Rattle.ct_keep.specs.Counting.{AreCounts};
ghost use Rattle.pg_cache.specs.Caches.{IsCacheOf};
ghost use Rattle.pg_map.specs.Holding.{IsLayout};
ghost use Rattle.pg_directory.specs.Fetching.{ReadsDisk};
ghost use Rattle.pg_directory.specs.Looking.{DiskHolds};
ghost use Rattle.pg_directory.specs.OpenStore.{ArePlaces};
ghost use Rattle.pg_directory.specs.Trees.{StorePage, kind_of};

use ct_keep::{KeepFault, OwnerCounts};
use ct_site::Disk;
use pg_cache::PageCache;
use pg_directory::{EntryAt, read_entry};
use pg_journal::Journal;
use std::alloc::Global;

/// How many entries of a store each owner has. It reads each entry, in order of key. Where the bytes that are read are those of
/// no store, it answers Memory.
pub(crate) fn count_owners<D: Disk>(
    alloc: Global,
    disk: &mut D,
    cache: &mut PageCache,
    journal: &Journal,
    places: &[EntryAt],
) -> Result<OwnerCounts, KeepFault>
    requires { IsCacheOf (D.disk disk.old) journal.now cache.old }
    ensures counts { (top : ℕ) (pages : List StorePage) (m : Content) → DiskHolds (D.disk disk.old) journal.now top pages → IsLayout (map kind_of pages) m → ArePlaces pages places.now
        → IfOk result (λ counts. AreCounts m counts) }
    ensures cache { IsCacheOf (D.disk disk.new) journal.now cache.new }
    ensures same { IsSame (D.disk disk.old) (D.disk disk.new) }
    ensures full { result ≡ Err KeepFault.Full → ⊥ }
    ensures reads { ReadsDisk (D.disk disk.old) (D.disk disk.new) result }
{
    let mut counts = OwnerCounts::new(alloc);
    for i in 0..places.len() {
        let found = match read_entry(alloc, disk, cache, journal, places[i]) {
            Ok(found) => found,
            Err(fault) => return Err(fault),
        };
        let Some((key, _)) = found else {
            return Err(KeepFault::Memory);
        };
        let Ok(()) = counts.add(alloc, &key) else {
            return Err(KeepFault::Memory);
        };
    }
    Ok(counts)
}
