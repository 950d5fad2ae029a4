//! The keys of entries, compared where they stand.

ghost use Rattle.std.specs.Prelude.{◌≡◌, ◌≤◌, ◌<◌, ℕ, List, [], Some, IfOk, IfSome, IsTrue, IsFalse, length, get_or};
ghost use Rattle.std.specs.Ordering.{nat_cmp, is_lt};
ghost use Rattle.std.specs.Cmp.Lexicographic.{slice_cmp};
ghost use Rattle.pg_page.specs.Pages.{Fits, page_bytes};
ghost use Rattle.pg_map.specs.PageStrings.{string_key};
ghost use Rattle.ct_site.specs.Disks.{IsSame, Works};
ghost use Rattle.pg_cache.specs.Caches.{IsCacheOf};
ghost use Rattle.pg_directory.specs.Trees.{StorePage, bytes_of_page, page_at, key_at, HasString};
ghost use Rattle.pg_directory.specs.Keeping.{IsKeptPage};
ghost use Rattle.pg_directory.specs.Looking.{DiskHolds};

use crate::entries::EntryAt;
use ct_site::{Disk, Failed};
use pg_cache::PageCache;
use pg_journal::Journal;
use pg_page::string_in;

/// Where the home page of a number stands in the cache, if there is one behind the root.
pub fn page_behind<D: Disk>(
    disk: &mut D,
    cache: &mut PageCache,
    journal: &Journal,
    number: u32,
) -> Result<Option<usize>, Failed>
    requires { IsCacheOf (D.disk disk.old) journal.now cache.old }
    ensures page { (top : ℕ) (pages : List StorePage) → DiskHolds (D.disk disk.old) journal.now top pages → 3 ≤ number → number < journal.now
        → IfOk result (λ found. IsKeptPage found cache.new (bytes_of_page (page_at pages number))) }
    ensures behind { IfOk result (λ found. IfSome found (λ at. (3 ≤ number) × (number < journal.now) × (at < length cache.new))) }
    ensures cache { IsCacheOf (D.disk disk.new) journal.now cache.new }
    ensures same { IsSame (D.disk disk.old) (D.disk disk.new) }
    ensures works { Works (D.disk disk.old) (D.disk disk.new) result }
{
    if !is_behind(journal, number) {
        return Ok(None);
    }
    let at = cache.seek(disk, journal, number)?;
    Ok(Some(at))
}

/// Whether a home page of a number stands behind the root.
fn is_behind(journal: &Journal, number: u32) -> bool
    ensures yes { IsTrue result → (3 ≤ number) × (number < journal.now) }
    ensures no { IsFalse result → 3 ≤ number → number < journal.now → ⊥ }
{
    number >= 3 && number < journal.homes()
}

/// The key that the string of an entry spells.
pub fn key_of(string: &[u8]) -> &[u8]
    ensures { result.now ≡ string_key string.now }
{
    if string.len() < 3 {
        return &string[..0];
    }
    let count = u16::from_be_bytes([string[1], string[2]]) as usize;
    let rest = &string[3..];
    &rest[..count.min(rest.len())]
}

/// Whether the key of the entry of a slot is greater than this one, on the page of these bytes; None only where it has no such entry.
fn is_key_above(page: &[u8; 4096], slot: u16, key: &[u8]) -> Option<bool>
    ensures { (ss : List (List ℕ)) → Fits ss → page.now ≡ page_bytes ss → slot < length ss → result ≡ Some (is_lt (slice_cmp nat_cmp key.now (string_key (get_or ss slot [])))) }
{
    let string = string_in(page, slot as usize)?;
    Some(is_below(key, key_of(string)))
}

/// Whether a key is less than another one.
pub fn is_below(key: &[u8], other: &[u8]) -> bool
    ensures { result ≡ is_lt (slice_cmp nat_cmp key.now other.now) }
{
    key.cmp(other).is_lt()
}

/// Whether the key of the entry at a place is greater than this one; None only where there is no such entry.
pub(crate) fn is_above<D: Disk>(
    disk: &mut D,
    cache: &mut PageCache,
    journal: &Journal,
    at: EntryAt,
    key: &[u8],
) -> Result<Option<bool>, Failed>
    requires { IsCacheOf (D.disk disk.old) journal.now cache.old }
    ensures above { (top : ℕ) (pages : List StorePage) → DiskHolds (D.disk disk.old) journal.now top pages → HasString pages at
        → IfOk result (λ found. found ≡ Some (is_lt (slice_cmp nat_cmp key.now (key_at pages at)))) }
    ensures cache { IsCacheOf (D.disk disk.new) journal.now cache.new }
    ensures same { IsSame (D.disk disk.old) (D.disk disk.new) }
    ensures works { Works (D.disk disk.old) (D.disk disk.new) result }
{
    let Some(kept) = page_behind(disk, cache, journal, at.page)? else {
        return Ok(None);
    };
    Ok(is_key_above(cache.page(kept), at.slot, key))
}
