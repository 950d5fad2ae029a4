//! The entries that a leaf names, changed in memory.

ghost use Rattle.std.specs.Prelude.{◌≡◌, ◌≤◌, ◌<◌, ℕ, List, IfOk, OnErr, OnOk, IfSome, IsNone, length, set};
ghost use Rattle.pg_map.specs.Kinds.{Each};
ghost use Rattle.ct_site.specs.Disks.{IsSame, Works};
ghost use Rattle.pg_cache.specs.Caches.{IsCacheOf};
ghost use Rattle.pg_directory.specs.Changing.{with_entry, without_entry, AreParted};
ghost use Rattle.pg_directory.specs.Looking.{DiskHolds, IsRankOr};
ghost use Rattle.pg_directory.specs.Trees.{StorePage, key_at, HasString, Rise};

use crate::comparing::is_above;
use crate::entries::EntryAt;
use crate::ranking::half_of;
use ct_base::Memory;
use ct_site::{Disk, Failed};
use pg_cache::PageCache;
use pg_journal::Journal;

/// How many entries a leaf names at most.
const ENTRIES: usize = 681;

/// How many of the entries at these places have keys that are at most this one, where their keys rise. It looks at the logarithm of their
/// number. None only where the bytes that are read are those of no store.
pub fn rank_among<D: Disk>(
    disk: &mut D,
    cache: &mut PageCache,
    journal: &Journal,
    places: &[EntryAt],
    key: &[u8],
) -> Result<Option<usize>, Failed>
    requires { IsCacheOf (D.disk disk.old) journal.now cache.old }
    ensures rank { (top : ℕ) (pages : List StorePage) → DiskHolds (D.disk disk.old) journal.now top pages → Each (HasString pages) places.now → Rise (key_at pages) places.now
        → IfOk result (λ found. IsRankOr found pages places.now key.now) }
    ensures within { IfOk result (λ found. IfSome found (λ rank. rank ≤ length places.now)) }
    ensures cache { IsCacheOf (D.disk disk.new) journal.now cache.new }
    ensures same { IsSame (D.disk disk.old) (D.disk disk.new) }
    ensures works { Works (D.disk disk.old) (D.disk disk.new) result }
{
    let mut low = 0;
    let mut high = places.len();
    while low < high {
        let middle = low + (high - low) / 2;
        let Some(above) = is_above(disk, cache, journal, places[middle], key)? else {
            return Ok(None);
        };
        let half = half_of(above, low, middle, high);
        low = half.0;
        high = half.1;
    }
    Ok(Some(low))
}

/// Puts an entry behind so many others.
pub fn put_entry(entries: &mut Vec<EntryAt>, before: usize, entry: EntryAt) -> Result<(), Memory>
    requires { before ≤ length entries.old.items }
    ensures ok { OnOk result (entries.new.items ≡ with_entry before entry entries.old.items) }
    ensures err { OnErr result (entries.new.items ≡ entries.old.items) }
{
    entries.insert(before, entry)?;
    Ok(())
}

/// Takes the entry away that comes behind so many others.
pub fn take_entry(entries: &mut Vec<EntryAt>, before: usize)
    requires { before < length entries.old.items }
    ensures { entries.new.items ≡ without_entry before entries.old.items }
{
    let _ = entries.remove(before);
}

/// Puts an entry in place of the one that comes behind so many others.
pub fn move_entry(entries: &mut Vec<EntryAt>, before: usize, entry: EntryAt)
    requires { before < length entries.old.items }
    ensures { entries.new.items ≡ set entries.old.items before entry }
{
    entries[before] = entry;
}

/// Parts the entries of a leaf that are too many for its page: its second half becomes another leaf's. None where they are few enough.
pub fn part_entries(entries: &mut Vec<EntryAt>) -> Result<Option<Vec<EntryAt>>, Memory>
    requires { length entries.old.items ≤ 1362 }
    ensures parted { IfOk result (λ found. IfSome found (λ behind. AreParted entries.old.items entries.new.items behind.items)) }
    ensures whole { IfOk result (λ found. IsNone found → (entries.new.items ≡ entries.old.items) × (length entries.old.items ≤ 681)) }
    ensures err { OnErr result (entries.new.items ≡ entries.old.items) }
{
    if entries.len() <= ENTRIES {
        return Ok(None);
    }
    let behind = entries.split_off(entries.len() / 2)?;
    Ok(Some(behind))
}
