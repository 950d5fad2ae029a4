//! A batch over the parts of a heap with a directory: what it begins with, and how it ends.

ghost use Rattle.std.specs.Prelude.{◌≡◌, ◌+◌, [], ℕ, List, Err, IfOk, OnOk, OnErr, length, map};
ghost use Rattle.ct_site.specs.Disks.{IsSame, Leaves};
ghost use Rattle.ct_keep.specs.Changes.{AnyEntry, AreWell};
ghost use Rattle.ct_keep.specs.Content.{after, Content};
ghost use Rattle.ct_keep.specs.SeenChanges.{change_of};
ghost use Rattle.pg_batch.specs.ByKey.{KeysRise};
ghost use Rattle.pg_batch.specs.Counts.{SameCounts};
ghost use Rattle.pg_cache.specs.Caches.{IsCacheOf};
ghost use Rattle.pg_directory.specs.Fetching.{ReadsDisk};
ghost use Rattle.pg_directory.specs.Trees.{StorePage};
ghost use Rattle.pg_window.specs.Loading.{IsStoreWindow, Loads};
ghost use Rattle.pg_window.specs.Sheets.{sheet_kinds};
ghost use Rattle.pg_window.specs.Windows.{away_of};
ghost use Rattle.pg_plan.specs.FreePlaces.{ListsFree};
ghost use Rattle.pg_plan.specs.Touched.{AreTouched};
ghost use Rattle.pg_change.specs.BatchWindows.{place_or, AreIn};
ghost use Rattle.pg_change.specs.Resting.{IsResting};
ghost use Rattle.pg_change.specs.Commits.{CommitsPages};
ghost use Rattle.pg_heap.specs.Applying.{IsEitherMap};
ghost use Rattle.pg_heap.specs.BatchLengths.{EndsWithin};
ghost use Rattle.pg_heap.specs.Batching.{first_draft, IsBatchBegun, IsBatchMade};

use ct_keep::{Change, KeepFault, OwnerCounts};
use ct_site::{Disk, Failed};
use pg_batch::{Asked, count_gone, count_new, uncount_new};
use pg_cache::PageCache;
use pg_change::{
    PlannedBatch, commit_batch, load_places, load_roomy, page_places, plan_batch, rest_all,
};
use pg_directory::{Directory, EntryAt};
use pg_journal::Journal;
use pg_plan::{Draft, Hints};
use pg_window::{Sheet, unload};
use std::alloc::Global;
use std::mem::replace;

/// How many pages that may have room for an entry are brought into memory for a batch that puts little.
const ROOMY: usize = 2;

/// For so many bytes that a batch puts one page more that may have room is brought into memory.
const ROOM: usize = 2048;

/// What a batch begins with: the places of the pages that were brought into memory for it, those among them that may have room, and beside
/// each change the place of the page that its key's old entry is on.
#[derive(Drop)]
pub(crate) struct BegunBatch {
    pub(crate) loaded: Vec<usize>,
    pub(crate) roomy: Vec<usize>,
    pub(crate) places: Vec<usize>,
}

/// How many pages that may have room are brought into memory for these changes, at most: more where they put more.
fn roomy_limit(changes: &[Change]) -> usize {
    let mut bytes: usize = 0;
    for change in changes {
        if let Some(value) = &change.value {
            bytes = bytes
                .saturating_add(change.key.len())
                .saturating_add(value.len());
        }
    }
    (bytes / ROOM).saturating_add(ROOMY)
}

/// Brings the pages of these entries into memory, and so many with room, as `load_places` and `load_roomy` do. After an error all is as it was.
fn load_batch<D: Disk>(
    alloc: Global,
    disk: &mut D,
    cache: &mut PageCache,
    journal: &Journal,
    sheets: &mut Vec<Sheet>,
    roomy: &[usize],
    limit: usize,
    entries: &[Option<EntryAt>],
) -> Result<BegunBatch, KeepFault>
    requires { IsCacheOf (D.disk disk.old) journal.now cache.old }
    ensures window { (top : ℕ) (pages : List StorePage) (m : Content) → IsStoreWindow (D.disk disk.old) journal.now top pages m sheets.old.items
        → OnOk result (IsStoreWindow (D.disk disk.new) journal.now top pages m sheets.new.items) }
    ensures there { (top : ℕ) (pages : List StorePage) (m : Content) → IsStoreWindow (D.disk disk.old) journal.now top pages m sheets.old.items
        → OnOk result (AreIn pages entries.now (away_of sheets.new.items)) }
    ensures loads { IfOk result (λ begun. Loads sheets.old.items sheets.new.items [] begun.loaded.items) }
    ensures places { IfOk result (λ begun. begun.places.items ≡ map (place_or 18446744073709551615) entries.now) }
    ensures back { OnErr result (sheets.new.items ≡ sheets.old.items) }
    ensures cache { IsCacheOf (D.disk disk.new) journal.now cache.new }
    ensures same { IsSame (D.disk disk.old) (D.disk disk.new) }
    ensures full { result ≡ Err KeepFault.Full → ⊥ }
    ensures reads { ReadsDisk (D.disk disk.old) (D.disk disk.new) result }
{
    let Ok(places) = page_places(alloc, entries, usize::MAX) else {
        return Err(KeepFault::Memory);
    };
    let mut loaded = Vec::new(alloc);
    match load_places(alloc, disk, cache, journal, sheets, &mut loaded, entries) {
        Ok(()) => {}
        Err(fault) => return Err(fault),
    }
    match load_roomy(
        alloc,
        disk,
        cache,
        journal,
        sheets,
        &mut loaded,
        roomy,
        limit,
    ) {
        Ok(roomy) => Ok(BegunBatch {
            loaded,
            roomy,
            places,
        }),
        Err(fault) => {
            unload(sheets, &mut loaded);
            Err(fault)
        }
    }
}

/// The same, and the places of pages with room that were brought into memory are noted no more. The list of free pages is settled.
pub(crate) fn begin_batch<D: Disk>(
    alloc: Global,
    disk: &mut D,
    cache: &mut PageCache,
    journal: &Journal,
    sheets: &mut Vec<Sheet>,
    hints: &mut Hints,
    asked: &Asked,
) -> Result<BegunBatch, KeepFault>
    requires { IsCacheOf (D.disk disk.old) journal.now cache.old }
    ensures window { (top : ℕ) (pages : List StorePage) (m : Content) → IsStoreWindow (D.disk disk.old) journal.now top pages m sheets.old.items
        → OnOk result (IsStoreWindow (D.disk disk.new) journal.now top pages m sheets.new.items) }
    ensures there { (top : ℕ) (pages : List StorePage) (m : Content) → IsStoreWindow (D.disk disk.old) journal.now top pages m sheets.old.items
        → OnOk result (AreIn pages asked.now.places.items (away_of sheets.new.items)) }
    ensures loads { IfOk result (λ begun. Loads sheets.old.items sheets.new.items [] begun.loaded.items) }
    ensures places { IfOk result (λ begun. begun.places.items ≡ map (place_or 18446744073709551615) asked.now.places.items) }
    ensures settled { OnOk result (hints.new.free.before ≡ hints.new.free.now) }
    ensures free { hints.new.free.now ≡ hints.old.free.now }
    ensures back { OnErr result (sheets.new.items ≡ sheets.old.items) }
    ensures cache { IsCacheOf (D.disk disk.new) journal.now cache.new }
    ensures same { IsSame (D.disk disk.old) (D.disk disk.new) }
    ensures full { result ≡ Err KeepFault.Full → ⊥ }
    ensures reads { ReadsDisk (D.disk disk.old) (D.disk disk.new) result }
{
    let limit = roomy_limit(&asked.changes);
    let begun = match load_batch(
        alloc,
        disk,
        cache,
        journal,
        sheets,
        &hints.roomy,
        limit,
        &asked.places,
    ) {
        Ok(begun) => begun,
        Err(fault) => return Err(fault),
    };
    let kept = hints.roomy.len().saturating_sub(limit);
    hints.roomy.truncate(kept);
    hints.free.settle();
    Ok(begun)
}

/// Plans a batch in a draft that has just begun over pages in memory, and commits it. After an error the draft and the list of free pages are to
/// be rolled back; the counts mean what they did. After Disk the store is loaded again.
pub(crate) fn commit_asked<D: Disk>(
    alloc: Global,
    disk: &mut D,
    cache: &mut PageCache,
    journal: &mut Journal,
    draft: &mut Draft,
    hints: &mut Hints,
    counts: &mut OwnerCounts,
    top: u32,
    directory: &Directory,
    places: &[usize],
    asked: &Asked,
) -> Result<PlannedBatch, KeepFault>
    requires well { AreWell AnyEntry (map change_of asked.now.changes.items) }
    requires rise { KeysRise (map change_of asked.now.changes.items) }
    requires beside { length places.now ≡ length asked.now.changes.items }
    requires listed { ListsFree draft.old.now hints.old.free.now }
    requires homes { journal.old ≡ 3 + length draft.old.before.kinds }
    requires cache { IsCacheOf (D.disk disk.old) journal.old cache.old }
    ensures moments { (b : IsBatchBegun (D.disk disk.old) journal.old top directory.now (map change_of asked.now.changes.items) asked.now.places.items places.now draft.old counts.old)
        → Leaves (D.disk disk.old) (D.disk disk.new) (IsEitherMap b.held (after (map change_of asked.now.changes.items) b.held)) }
    ensures made { (b : IsBatchBegun (D.disk disk.old) journal.old top directory.now (map change_of asked.now.changes.items) asked.now.places.items places.now draft.old counts.old)
        → IfOk result (λ planned. IsBatchMade (D.disk disk.new) journal.new (after (map change_of asked.now.changes.items) b.held) hints.new.free.now counts.new planned.top planned.directory) }
    ensures counts { OnErr result (SameCounts counts.old counts.new) }
    ensures touched { IfOk result (λ planned. AreTouched draft.new planned.numbers) }
    ensures listed { OnOk result (ListsFree draft.new.now hints.new.free.now) }
    ensures homes { OnOk result (journal.new ≡ 3 + length draft.new.now) }
    ensures err { OnErr result (journal.new ≡ journal.old) }
    ensures before { draft.new.before ≡ draft.old.before }
    ensures kept { hints.new.free.before ≡ hints.old.free.before }
    ensures cache { OnOk result (IsCacheOf (D.disk disk.new) journal.new cache.new) }
    ensures memory { result ≡ Err KeepFault.Memory → IsSame (D.disk disk.old) (D.disk disk.new) × IsCacheOf (D.disk disk.new) journal.new cache.new }
    ensures full { result ≡ Err KeepFault.Full → ⊥ }
    ensures commits { CommitsPages (D.disk disk.old) (D.disk disk.new) result }
    ensures ends { (b : IsBatchBegun (D.disk disk.old) journal.old top directory.now (map change_of asked.now.changes.items) asked.now.places.items places.now draft.old counts.old)
        → EndsWithin journal.old hints.old.free.now (map change_of asked.now.changes.items) b.held (D.disk disk.old) (D.disk disk.new) }
{
    let found = match plan_batch(
        alloc,
        disk,
        cache,
        journal,
        draft,
        hints,
        top,
        directory,
        places,
        &asked.changes,
    ) {
        Ok(found) => found,
        Err(fault) => return Err(fault),
    };
    let Some(planned) = found else {
        let Failed = journal.fill(disk);
        return Err(KeepFault::Disk);
    };
    let Ok(()) = count_new(alloc, counts, &asked.changes, &asked.places) else {
        return Err(KeepFault::Memory);
    };
    match commit_batch(
        disk,
        cache,
        journal,
        draft,
        &planned.numbers,
        &planned.images,
        planned.top,
    ) {
        Ok(()) => {
            count_gone(counts, &asked.changes, &asked.places);
            Ok(planned)
        }
        Err(fault) => {
            uncount_new(counts, &asked.changes, &asked.places);
            Err(fault)
        }
    }
}

/// Makes the changes of a batch over pages that were brought into memory for it, all of them or none, in one commit. Afterwards just the free
/// pages are in memory. After Disk the store is loaded again.
pub(crate) fn write_batch<D: Disk>(
    alloc: Global,
    disk: &mut D,
    cache: &mut PageCache,
    journal: &mut Journal,
    sheets: &mut Vec<Sheet>,
    hints: &mut Hints,
    counts: &mut OwnerCounts,
    top: u32,
    directory: &Directory,
    begun: BegunBatch,
    asked: &Asked,
) -> Result<(u32, Directory), KeepFault>
    requires well { AreWell AnyEntry (map change_of asked.now.changes.items) }
    requires rise { KeysRise (map change_of asked.now.changes.items) }
    requires beside { length begun.places.items ≡ length asked.now.changes.items }
    requires listed { ListsFree (sheet_kinds sheets.old.items) hints.old.free.now }
    requires settled { hints.old.free.before ≡ hints.old.free.now }
    requires homes { journal.old ≡ 3 + length sheets.old.items }
    requires cache { IsCacheOf (D.disk disk.old) journal.old cache.old }
    ensures moments { (b : IsBatchBegun (D.disk disk.old) journal.old top directory.now (map change_of asked.now.changes.items) asked.now.places.items begun.places.items (first_draft sheets.old.items) counts.old)
        → Leaves (D.disk disk.old) (D.disk disk.new) (IsEitherMap b.held (after (map change_of asked.now.changes.items) b.held)) }
    ensures made { (b : IsBatchBegun (D.disk disk.old) journal.old top directory.now (map change_of asked.now.changes.items) asked.now.places.items begun.places.items (first_draft sheets.old.items) counts.old)
        → IfOk result (λ made. IsBatchMade (D.disk disk.new) journal.new (after (map change_of asked.now.changes.items) b.held) hints.new.free.now counts.new made.0 made.1) }
    ensures counts { OnErr result (SameCounts counts.old counts.new) }
    ensures rests { (before : List Sheet) → IsResting before journal.old hints.old.free.now → Loads before sheets.old.items [] begun.loaded.items
        → OnOk result (IsResting sheets.new.items journal.new hints.new.free.now) }
    ensures back { (before : List Sheet) → IsResting before journal.old hints.old.free.now → Loads before sheets.old.items [] begun.loaded.items → OnErr result (sheets.new.items ≡ before) }
    ensures free { OnErr result (hints.new.free.now ≡ hints.old.free.now) }
    ensures err { OnErr result (journal.new ≡ journal.old) }
    ensures cache { OnOk result (IsCacheOf (D.disk disk.new) journal.new cache.new) }
    ensures memory { result ≡ Err KeepFault.Memory → IsSame (D.disk disk.old) (D.disk disk.new) × IsCacheOf (D.disk disk.new) journal.new cache.new }
    ensures full { result ≡ Err KeepFault.Full → ⊥ }
    ensures commits { CommitsPages (D.disk disk.old) (D.disk disk.new) result }
    ensures ends { (b : IsBatchBegun (D.disk disk.old) journal.old top directory.now (map change_of asked.now.changes.items) asked.now.places.items begun.places.items (first_draft sheets.old.items) counts.old)
        → EndsWithin journal.old hints.old.free.now (map change_of asked.now.changes.items) b.held (D.disk disk.old) (D.disk disk.new) }
{
    let BegunBatch {
        mut loaded,
        roomy,
        places,
    } = begun;
    let rest = replace(&mut hints.roomy, roomy);
    let mut draft = Draft::begin(alloc, replace(sheets, Vec::new(alloc)));
    match commit_asked(
        alloc, disk, cache, journal, &mut draft, hints, counts, top, directory, &places, asked,
    ) {
        Ok(planned) => {
            *sheets = draft.finish();
            rest_all(sheets, &loaded, planned.numbers.behind_root());
            hints.free.settle();
            put_before(hints, rest);
            Ok((planned.top, planned.directory))
        }
        Err(fault) => {
            *sheets = draft.roll_back();
            unload(sheets, &mut loaded);
            hints.free.roll_back();
            put_before(hints, rest);
            Err(fault)
        }
    }
}

/// Puts places of pages that may have room before those that are noted. Where there is no memory the latter are noted no more.
fn put_before(hints: &mut Hints, mut rest: Vec<usize>)
    ensures { hints.new.free ≡ hints.old.free }
{
    let _ = rest.append(&mut hints.roomy);
    hints.roomy = rest;
}
