//! How many of the entries that a page names come before a key.

ghost use Rattle.std.specs.Prelude.{◌≡◌, ◌≤◌, ◌<◌, ◌+◌, ◌^◌, ℕ, List, Some, IfOk, IfSome, length, take, drop};
ghost use Rattle.pg_map.specs.Kinds.{Each};
ghost use Rattle.ct_site.specs.Disks.{IsSame, Works};
ghost use Rattle.pg_cache.specs.Caches.{IsCacheOf};
ghost use Rattle.pg_directory.specs.Pages.{DirectoryPage, directory_bytes, named, IsDirectoryPage};
ghost use Rattle.pg_directory.specs.Trees.{StorePage, key_at, HasString, Rise};
ghost use Rattle.pg_directory.specs.Looking.{first_or, last_of, DiskHolds, IsHalf, IsRankOr};

use crate::comparing::is_above;
use crate::entries::EntryAt;
use crate::reading::{count_in, named_at};
use ct_site::{Disk, Failed};
use pg_cache::PageCache;
use pg_journal::Journal;

/// How many of the entries that a page of the directory names have keys that are at most this one. It looks at the logarithm of their
/// number. None only where the bytes are those of no such page.
pub(crate) fn rank_of<D: Disk>(
    disk: &mut D,
    cache: &mut PageCache,
    journal: &Journal,
    page: &[u8; 4096],
    key: &[u8],
) -> Result<Option<usize>, Failed>
    requires { IsCacheOf (D.disk disk.old) journal.now cache.old }
    ensures rank { (top : ℕ) (pages : List StorePage) (d : DirectoryPage) → DiskHolds (D.disk disk.old) journal.now top pages → IsDirectoryPage d → page.now ≡ directory_bytes d
        → Each (HasString pages) (named d) → Rise (key_at pages) (named d) → IfOk result (λ found. IsRankOr found pages (named d) key.now) }
    ensures small { IfOk result (λ found. IfSome found (λ rank. rank < 2 ^ 16)) }
    ensures cache { IsCacheOf (D.disk disk.new) journal.now cache.new }
    ensures same { IsSame (D.disk disk.old) (D.disk disk.new) }
    ensures works { Works (D.disk disk.old) (D.disk disk.new) result }
{
    let mut low = 0;
    let mut high = count_in(page);
    while low < high {
        let middle = low + (high - low) / 2;
        let Some(above) = is_above(disk, cache, journal, named_at(page, middle), key)? else {
            return Ok(None);
        };
        let half = half_of(above, low, middle, high);
        low = half.0;
        high = half.1;
    }
    Ok(Some(low))
}

/// The half of a range in which the rank lies: the lower one where the entry in the middle is above the key.
pub(crate) fn half_of(above: bool, low: usize, middle: usize, high: usize) -> (usize, usize)
    requires least { low ≤ middle }
    requires less { middle < high }
    ensures half { IsHalf above low middle high result.0 result.1 }
    ensures order { result.0 ≤ result.1 }
    ensures within { result.1 ≤ high }
    ensures smaller { result.1 + low < high + result.0 }
{
    if above {
        (low, middle)
    } else {
        (middle + 1, high)
    }
}

/// The entry that a page names behind so many, or else another one.
pub(crate) fn first_behind(
    page: &[u8; 4096],
    rank: usize,
    other: Option<EntryAt>,
) -> Option<EntryAt>
    requires { rank < 2 ^ 16 }
    ensures { (d : DirectoryPage) → IsDirectoryPage d → page.now ≡ directory_bytes d → result ≡ first_or other (drop rank (named d)) }
{
    if rank < count_in(page) {
        Some(named_at(page, rank))
    } else {
        other
    }
}

/// The last of the first entries that a page names, of which there are so many.
pub(crate) fn last_before(page: &[u8; 4096], rank: usize) -> Option<EntryAt>
    requires { rank < 2 ^ 16 }
    ensures { (d : DirectoryPage) → IsDirectoryPage d → page.now ≡ directory_bytes d → rank ≤ length (named d) → result ≡ last_of (take rank (named d)) }
{
    if rank == 0 {
        return None;
    }
    Some(named_at(page, rank - 1))
}
