//! The string of an entry, read where it stands.

ghost use Rattle.std.specs.Prelude.{◌≡◌, ◌↔◌, ◌<◌, ℕ, List, [], IfOk, IfSome, IsTrue, MatchOption, get_or, length};
ghost use Rattle.ct_site.specs.Disks.{IsSame, Works};
ghost use Rattle.pg_page.specs.Pages.{Fits, page_bytes};
ghost use Rattle.pg_cache.specs.Caches.{IsCacheOf};
ghost use Rattle.pg_map.specs.Kinds.{StringItem, item_bytes};
ghost use Rattle.pg_map.specs.PageStrings.{string_key};
ghost use Rattle.pg_directory.specs.Trees.{StorePage, HasString};
ghost use Rattle.pg_directory.specs.Looking.{DiskHolds};
ghost use Rattle.pg_batch.specs.Strings.{HasPageOf, WeighsAs, head_size};

use ct_site::{Disk, Failed};
use pg_cache::PageCache;
use pg_directory::{EntryAt, key_of, page_behind};
use pg_journal::Journal;
use pg_map::far_in;
use pg_page::string_in;

/// Where the page on which an entry stands is in the cache. None only where the bytes that are read are those of no store.
pub(crate) fn page_of<D: Disk>(
    disk: &mut D,
    cache: &mut PageCache,
    journal: &Journal,
    at: EntryAt,
) -> Result<Option<usize>, Failed>
    requires { IsCacheOf (D.disk disk.old) journal.now cache.old }
    ensures page { (top : ℕ) (pages : List StorePage) → DiskHolds (D.disk disk.old) journal.now top pages → HasString pages at
        → IfOk result (λ found. HasPageOf found cache.new pages at) }
    ensures within { IfOk result (λ found. IfSome found (λ at. at < length cache.new)) }
    ensures cache { IsCacheOf (D.disk disk.new) journal.now cache.new }
    ensures same { IsSame (D.disk disk.old) (D.disk disk.new) }
    ensures works { Works (D.disk disk.old) (D.disk disk.new) result }
{
    page_behind(disk, cache, journal, at.page)
}

/// Whether two keys are the same.
fn is_same(own: &[u8], key: &[u8]) -> bool
    ensures { IsTrue result ↔ (own.now ≡ key.now) }
{
    own == key
}

/// Whether the entry of a slot has this key, on the page of these bytes. None only where it has no such entry.
pub(crate) fn has_key(page: &[u8; 4096], slot: u16, key: &[u8]) -> Option<bool>
    ensures { (ss : List (List ℕ)) → Fits ss → page.now ≡ page_bytes ss → slot < length ss → MatchOption result ⊥ (λ same. IsTrue same ↔ (string_key (get_or ss slot []) ≡ key.now)) }
{
    let string = string_in(page, slot as usize)?;
    Some(is_same(key_of(string), key))
}

/// How many bytes of a string are neither its key nor its value.
fn head_size(string: &[u8]) -> u64
    ensures { (item : StringItem) → string.now ≡ item_bytes item → result ≡ head_size item }
{
    if !string.is_empty() && string[0] == 0 {
        3
    } else {
        11
    }
}

/// What the entry of a string weighs: its bytes, and at least 64. Its value isn't read.
fn string_weight(string: &[u8]) -> u64
    ensures { WeighsAs result string.now }
{
    let (_, count) = far_in(string);
    let short = (string.len() as u64).saturating_sub(head_size(string));
    short.saturating_add(count as u64).max(64)
}

/// What the entry of a slot weighs, on the page of these bytes. None only where it has no such entry.
pub(crate) fn weight_on(page: &[u8; 4096], slot: u16) -> Option<u64>
    ensures { (ss : List (List ℕ)) → Fits ss → page.now ≡ page_bytes ss → slot < length ss → MatchOption result ⊥ (λ weight. WeighsAs weight (get_or ss slot [])) }
{
    let string = string_in(page, slot as usize)?;
    Some(string_weight(string))
}
