//! The plan of a batch: its entries on pages in memory, the directory that they ask for, and all that its commit writes.

ghost use Rattle.std.specs.Prelude.{◌≡◌, ◌≤◌, ℕ, List, Ok, Err, None, IfOk, IfNone, IfSome, IsTrue, IsFalse, length, map};
ghost use Rattle.ct_site.specs.Disks.{IsSame};
ghost use Rattle.ct_keep.specs.Content.{Content};
ghost use Rattle.ct_keep.specs.Changes.{AnyEntry, AreWell};
ghost use Rattle.ct_keep.specs.SeenChanges.{change_of};
ghost use Rattle.pg_map.specs.Done.{IsDone};
ghost use Rattle.pg_batch.specs.BatchPages.{put_pages};
ghost use Rattle.pg_batch.specs.ByKey.{KeysRise};
ghost use Rattle.pg_cache.specs.Caches.{IsCacheOf};
ghost use Rattle.pg_directory.specs.declared.entries.EntryAt.{EntryAt as EntryPlace};
ghost use Rattle.pg_directory.specs.Fetching.{ReadsDisk};
ghost use Rattle.pg_directory.specs.Looking.{DiskHolds};
ghost use Rattle.pg_directory.specs.Trees.{StorePage};
ghost use Rattle.pg_plan.specs.Changes.{KeysApart, StandAt};
ghost use Rattle.pg_plan.specs.Drafts.{StaysAway};
ghost use Rattle.pg_plan.specs.FreePlaces.{ListsFree, NeedsPages};
ghost use Rattle.pg_plan.specs.PlanSteps.{MakesChanges};
ghost use Rattle.pg_change.specs.Batches.{IsStoreBefore};
ghost use Rattle.pg_change.specs.Planning.{most_pages, HasFewPages, IsBegun, IsPlanned, IsReadyToCommit, NeedsFew, PlansEntries};

use crate::batch_commits::BatchNumbers;
use crate::editing::key_edits;
use crate::images::{DirectoryImages, directory_images};
use crate::rebuilding::{Rebuilt, rebuild};
use ct_keep::{Change, KeepFault};
use ct_site::Disk;
use pg_cache::PageCache;
use pg_directory::Directory;
use pg_journal::Journal;
use pg_leaves::{Edit, relist};
use pg_plan::{Draft, Hints, PlanFault, do_changes};
use std::alloc::Global;

/// What the commit of a batch writes, beside the pages of its draft: the number of the page at the top of the directory, 0 where there is none;
/// the numbers of all pages that are written; and the pages of the directory among these. And the directory then.
#[derive(Drop)]
pub struct PlannedBatch {
    pub top: u32,
    pub directory: Directory,
    pub numbers: BatchNumbers,
    pub images: DirectoryImages,
}

/// The greatest count of pages behind the root: each of them has a number below 2^31.
const MOST: usize = 2147483645;

/// Makes the changes of a batch on pages in memory, no two of them of one key, as `do_changes` does, and gives the edits of the directory
/// that they ask for; None where there would be too many pages for their numbers. Unless it is Some, the draft and the list of free pages are
/// to be rolled back. It costs the pages that it changes, each of which it also reads as the disk has it, and a copy of each key whose entry
/// moves.
fn plan_entries<D: Disk>(
    alloc: Global,
    disk: &mut D,
    cache: &mut PageCache,
    journal: &Journal,
    draft: &mut Draft,
    hints: &mut Hints,
    places: &[usize],
    changes: &[Change],
) -> Result<Option<Vec<Edit>>, KeepFault>
    requires well { AreWell AnyEntry (map change_of changes.now) }
    requires apart { KeysApart (map change_of changes.now) }
    requires beside { length places.now ≡ length changes.now }
    requires listed { ListsFree draft.old.now hints.old.free.now }
    requires cache { IsCacheOf (D.disk disk.old) journal.now cache.old }
    ensures before { draft.new.before ≡ draft.old.before }
    ensures kept { hints.new.free.before ≡ hints.old.free.before }
    ensures listed { IfOk result (λ found. IfSome found (λ edits. ListsFree draft.new.now hints.new.free.now)) }
    ensures stays { IfOk result (λ found. IfSome found (λ edits. StaysAway draft.old draft.new)) }
    ensures plans { (top : ℕ) (pages : List StorePage) (m : Content) → DiskHolds (D.disk disk.old) journal.now top pages → IsDone draft.old.now m → StandAt draft.old.now (map change_of changes.now) places.now
        → IfOk result (λ found. IfSome found (λ edits. PlansEntries pages draft.old draft.new (map change_of changes.now) m edits.items)) }
    ensures makes { (m : Content) → IsDone draft.old.now m → StandAt draft.old.now (map change_of changes.now) places.now
        → IfOk result (λ found. IfSome found (λ edits. MakesChanges draft.old draft.new (map change_of changes.now) m)) }
    ensures needs { NeedsPages draft.old.now draft.new.now (put_pages (map change_of changes.now)) }
    ensures too_many { result ≡ Ok None → 2147483645 ≤ length draft.new.now }
    ensures cache { IsCacheOf (D.disk disk.new) journal.now cache.new }
    ensures same { IsSame (D.disk disk.old) (D.disk disk.new) }
    ensures full { result ≡ Err KeepFault.Full → ⊥ }
    ensures reads { ReadsDisk (D.disk disk.old) (D.disk disk.new) result }
{
    match do_changes(alloc, draft, hints, places, changes) {
        Ok(()) => {}
        Err(PlanFault::TooMany) => return Ok(None),
        Err(PlanFault::Memory) => return Err(KeepFault::Memory),
    }
    if draft.count() > MOST {
        return Ok(None);
    }
    let Ok(numbers) = draft.touched_numbers(alloc) else {
        return Err(KeepFault::Memory);
    };
    match key_edits(alloc, disk, cache, journal, draft, &numbers, changes) {
        Ok(edits) => Ok(Some(edits)),
        Err(fault) => Err(fault),
    }
}

/// What is to be written of a directory that is made anew, and the numbers of all pages that a draft changed; None where there would be too
/// many pages for their numbers.
fn plan_commit(
    alloc: Global,
    draft: &Draft,
    rebuilt: Rebuilt,
) -> Result<Option<PlannedBatch>, KeepFault>
    ensures ready { IfOk result (λ found. IfSome found (IsReadyToCommit draft.now rebuilt)) }
    ensures many { IfOk result (λ found. IfNone found (2147483645 ≤ length draft.now.now)) }
    ensures memory { result ≡ Err KeepFault.Full → ⊥ }
    ensures disk { result ≡ Err KeepFault.Disk → ⊥ }
{
    if draft.count() > MOST {
        return Ok(None);
    }
    let Ok(numbers) = BatchNumbers::of_draft(alloc, draft) else {
        return Err(KeepFault::Memory);
    };
    let Rebuilt {
        top,
        directory,
        written,
        upper,
    } = rebuilt;
    let Ok(images) = directory_images(alloc, written, upper) else {
        return Err(KeepFault::Memory);
    };
    Ok(Some(PlannedBatch {
        top,
        directory,
        numbers,
        images,
    }))
}

/// Whether a draft has at most so many pages and notes more than these as a directory of a store with so many home pages may need, where so
/// many changes are made: each leaf and each page above goes and comes at most once, and each change may part a leaf.
fn needs_few(draft: &Draft, count: usize, noted: usize, homes: usize, changes: usize) -> bool
    ensures yes { IsTrue result → NeedsFew draft.now count noted homes changes }
    ensures no { IsFalse result → NeedsFew draft.now count noted homes changes → ⊥ }
{
    let pages = count.saturating_add(homes.saturating_mul(2));
    let notes = noted.saturating_add(homes.saturating_mul(3));
    draft.count() <= pages.saturating_add(changes.saturating_mul(1024))
        && draft.noted() <= notes.saturating_add(changes.saturating_mul(2048))
}

/// Plans a batch in a draft that has just begun, over a store with this directory: its changes, by their keys, and beside each the place of the
/// page that its key's old entry is on. None where there would be too many pages for their numbers: only where those that there are, those of
/// the entries that are put, and what the directory may need might be so many. Unless it is Some, the draft and the list of free pages are
/// to be rolled back. Where the directory takes more pages than one of a store ever does, it answers Memory. It reads the pages of entries
/// and the leaves of the directory that the batch changes, and what `relist` reads with them.
pub fn plan_batch<D: Disk>(
    alloc: Global,
    disk: &mut D,
    cache: &mut PageCache,
    journal: &Journal,
    draft: &mut Draft,
    hints: &mut Hints,
    top: u32,
    old: &Directory,
    places: &[usize],
    changes: &[Change],
) -> Result<Option<PlannedBatch>, KeepFault>
    requires well { AreWell AnyEntry (map change_of changes.now) }
    requires apart { KeysApart (map change_of changes.now) }
    requires beside { length places.now ≡ length changes.now }
    requires listed { ListsFree draft.old.now hints.old.free.now }
    requires cache { IsCacheOf (D.disk disk.old) journal.now cache.old }
    ensures before { draft.new.before ≡ draft.old.before }
    ensures kept { hints.new.free.before ≡ hints.old.free.before }
    ensures ready { IfOk result (λ found. IfSome found (λ planned. (new : Rebuilt) × IsReadyToCommit draft.new new planned)) }
    ensures listed { IfOk result (λ found. IfSome found (λ planned. ListsFree draft.new.now hints.new.free.now)) }
    ensures planned { (pages : List StorePage) (m part : Content) (es : List EntryPlace) → DiskHolds (D.disk disk.old) journal.now top pages → IsStoreBefore pages m top old.now es → KeysRise (map change_of changes.now)
        → IsBegun pages part (map change_of changes.now) places.now draft.old → IfOk result (λ found. IfSome found (IsPlanned pages m (map change_of changes.now) draft.new hints.new.free.now)) }
    ensures many { IfOk result (λ found. IfNone found (2147483645 ≤ most_pages draft.old.now journal.now (map change_of changes.now))) }
    ensures few { IfOk result (λ found. IfSome found (λ planned. HasFewPages draft.old draft.new journal.now (map change_of changes.now) places.now)) }
    ensures cache { IsCacheOf (D.disk disk.new) journal.now cache.new }
    ensures same { IsSame (D.disk disk.old) (D.disk disk.new) }
    ensures full { result ≡ Err KeepFault.Full → ⊥ }
    ensures reads { ReadsDisk (D.disk disk.old) (D.disk disk.new) result }
{
    draft.keep_shape();
    let edits = match plan_entries(alloc, disk, cache, journal, draft, hints, places, changes) {
        Ok(Some(edits)) => edits,
        Ok(None) => return Ok(None),
        Err(fault) => return Err(fault),
    };
    draft.keep_shape();
    let count = draft.count();
    let noted = draft.noted();
    let relisted = match relist(alloc, disk, cache, journal, &old.leaves, &edits) {
        Ok(relisted) => relisted,
        Err(fault) => return Err(fault),
    };
    let rebuilt = rebuild(alloc, draft, hints, top, old, relisted);
    draft.keep_shape();
    if !needs_few(draft, count, noted, journal.homes() as usize, changes.len()) {
        return Err(KeepFault::Memory);
    }
    match rebuilt {
        Ok(rebuilt) => plan_commit(alloc, draft, rebuilt),
        Err(PlanFault::TooMany) => Ok(None),
        Err(PlanFault::Memory) => Err(KeepFault::Memory),
    }
}
