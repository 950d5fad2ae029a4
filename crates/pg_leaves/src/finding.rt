//! Which leaf the edits belong to.

ghost use Rattle.std.specs.Prelude.{◌≡◌, ◌≤◌, ◌<◌, ◌+◌, ℕ, List, IfOk, IfSome, length, drop};
ghost use Rattle.ct_site.specs.Disks.{IsSame, Works};
ghost use Rattle.pg_map.specs.Kinds.{Each};
ghost use Rattle.pg_cache.specs.Caches.{IsCacheOf};
ghost use Rattle.pg_directory.specs.Levels.{leasts_of};
ghost use Rattle.pg_directory.specs.Looking.{DiskHolds};
ghost use Rattle.pg_directory.specs.Trees.{StorePage, HasString};
ghost use Rattle.pg_leaves.specs.Editing.{edits_of};
ghost use Rattle.pg_leaves.specs.Finding.{ArePartedOr, IsBeforeOr, IsLeafForOr, IsNextLeafOr, OverPlaces};

use crate::edits::Edit;
use ct_base::Memory;
use ct_site::{Disk, Failed};
use pg_cache::PageCache;
use pg_directory::{Child, EntryAt, rank_among};
use pg_journal::Journal;
use std::alloc::Global;

/// The next leaf that has edits: how many leaves come before it, and how many edits belong to it.
#[derive(Clone, Copy, Debug, PartialEq, Eq)]
pub(crate) struct NextLeaf {
    pub(crate) at: usize,
    pub(crate) edits: usize,
}

/// The least entries of leaves.
pub(crate) fn least_entries(alloc: Global, leaves: &[Child]) -> Result<Vec<EntryAt>, Memory>
    ensures { IfOk result (λ leasts. leasts.items ≡ leasts_of leaves.now) }
{
    let mut leasts = Vec::new(alloc);
    for leaf in leaves {
        leasts.push(leaf.least)?;
    }
    Ok(leasts)
}

/// Whether a key is below that of the first of these entries, or there is none. It compares one key. None only where the bytes that are read
/// are those of no store.
pub(crate) fn is_before<D: Disk>(
    disk: &mut D,
    cache: &mut PageCache,
    journal: &Journal,
    entries: &[EntryAt],
    key: &[u8],
) -> Result<Option<bool>, Failed>
    requires { IsCacheOf (D.disk disk.old) journal.now cache.old }
    ensures before { (top : ℕ) (pages : List StorePage) → DiskHolds (D.disk disk.old) journal.now top pages → Each (HasString pages) entries.now
        → IfOk result (λ found. IsBeforeOr found pages entries.now key.now) }
    ensures cache { IsCacheOf (D.disk disk.new) journal.now cache.new }
    ensures same { IsSame (D.disk disk.old) (D.disk disk.new) }
    ensures works { Works (D.disk disk.old) (D.disk disk.new) result }
{
    let first = &entries[..entries.len().min(1)];
    let Some(rank) = rank_among(disk, cache, journal, first, key)? else {
        return Ok(None);
    };
    Ok(Some(rank == 0))
}

/// How many of the edits, the first ones, have keys below that of the first of these entries: all, where there is none. It compares one key
/// for each of them, and one more. None only where the bytes that are read are those of no store.
fn edits_before<D: Disk>(
    disk: &mut D,
    cache: &mut PageCache,
    journal: &Journal,
    entries: &[EntryAt],
    edits: &[Edit],
) -> Result<Option<usize>, Failed>
    requires { IsCacheOf (D.disk disk.old) journal.now cache.old }
    ensures parted { (top : ℕ) (pages : List StorePage) → DiskHolds (D.disk disk.old) journal.now top pages → Each (HasString pages) entries.now
        → IfOk result (λ found. ArePartedOr found pages entries.now (edits_of edits.now)) }
    ensures within { IfOk result (λ found. IfSome found (λ count. count ≤ length edits.now)) }
    ensures cache { IsCacheOf (D.disk disk.new) journal.now cache.new }
    ensures same { IsSame (D.disk disk.old) (D.disk disk.new) }
    ensures works { Works (D.disk disk.old) (D.disk disk.new) result }
{
    for i in 0..edits.len() {
        let Some(is_before) = is_before(disk, cache, journal, entries, &edits[i].key)? else {
            return Ok(None);
        };
        if !is_before {
            return Ok(Some(i));
        }
    }
    Ok(Some(edits.len()))
}

/// How many of the leaves with these least entries come before the one to which an edit of this key belongs: the last one whose least key is
/// at most this one, or else the first one. None only where the bytes that are read are those of no store.
fn leaf_for<D: Disk>(
    disk: &mut D,
    cache: &mut PageCache,
    journal: &Journal,
    leasts: &[EntryAt],
    key: &[u8],
) -> Result<Option<usize>, Failed>
    requires { IsCacheOf (D.disk disk.old) journal.now cache.old }
    ensures leaf { OverPlaces (D.disk disk.old) journal.now leasts.now result (λ pages found. IsLeafForOr found pages leasts.now key.now) }
    ensures within { IfOk result (λ found. IfSome found (λ at. at ≤ length leasts.now)) }
    ensures cache { IsCacheOf (D.disk disk.new) journal.now cache.new }
    ensures same { IsSame (D.disk disk.old) (D.disk disk.new) }
    ensures works { Works (D.disk disk.old) (D.disk disk.new) result }
{
    let Some(rank) = rank_among(disk, cache, journal, leasts, key)? else {
        return Ok(None);
    };
    Ok(Some(rank.saturating_sub(1)))
}

/// What stands behind so many entries.
fn entries_behind(entries: &[EntryAt], count: usize) -> &[EntryAt]
    ensures { result.now ≡ drop count entries.now }
{
    &entries[count.min(entries.len())..]
}

/// The next leaf that has edits, of leaves with these least entries. It compares the keys of the logarithm of their number, and one for each
/// edit of the leaf. None only where the bytes that are read are those of no store.
pub(crate) fn next_leaf<D: Disk>(
    disk: &mut D,
    cache: &mut PageCache,
    journal: &Journal,
    leasts: &[EntryAt],
    edits: &[Edit],
) -> Result<Option<NextLeaf>, Failed>
    requires some { 1 ≤ length edits.now }
    requires cache { IsCacheOf (D.disk disk.old) journal.now cache.old }
    ensures next { OverPlaces (D.disk disk.old) journal.now leasts.now result (λ pages found. IsNextLeafOr found pages leasts.now (edits_of edits.now)) }
    ensures within { IfOk result (λ found. IfSome found (λ next. (next.at ≤ length leasts.now) × (1 ≤ next.edits) × (next.edits ≤ length edits.now))) }
    ensures cache { IsCacheOf (D.disk disk.new) journal.now cache.new }
    ensures same { IsSame (D.disk disk.old) (D.disk disk.new) }
    ensures works { Works (D.disk disk.old) (D.disk disk.new) result }
{
    let Some(at) = leaf_for(disk, cache, journal, leasts, &edits[0].key)? else {
        return Ok(None);
    };
    let later = entries_behind(leasts, at + 1);
    let Some(more) = edits_before(disk, cache, journal, later, &edits[1..])? else {
        return Ok(None);
    };
    Ok(Some(NextLeaf {
        at,
        edits: 1 + more,
    }))
}
