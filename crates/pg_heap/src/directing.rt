//! The directory of a store that has none, made and committed.

ghost use Rattle.std.specs.Prelude.{◌≡◌, ◌⊎◌, ◌≤◌, ◌<◌, ◌+◌, ◌-◌, ◌*◌, ◌^◌, Err, IfErr, IfOk, OnErr, OnOk, IsTrue, IsFalse, drop, length};
ghost use Rattle.ct_site.specs.Disks.{IsSame, Leaves};
ghost use Rattle.ct_site.specs.Lengths.{Lengthens};
ghost use Rattle.pg_cache.specs.Caches.{IsCacheOf};
ghost use Rattle.pg_journal.specs.Pages.{AreBetween, changed};
ghost use Rattle.pg_journal.specs.Standing.{commit_end, DiskStands, IsEither, MayCommit, OverPages};
ghost use Rattle.pg_directory.specs.Leaves.{leaves_for};
ghost use Rattle.pg_change.specs.Resting.{IsResting};
ghost use Rattle.pg_directory.specs.Making.{IsNewDirectory, new_pages};
ghost use Rattle.pg_directory.specs.Numbering.{homes_taken, AreRising};
ghost use Rattle.pg_change.specs.Commits.{CommitsPages};
ghost use Rattle.pg_heap.specs.Directing.{batch_numbers, directory_batch, direct_end, homes_directed, IsPlainStore, HoldsDirectory, LeavesMap};
ghost use Rattle.pg_heap.specs.Once.{between_once, numbers_once};

use crate::loading::sheets_at_rest;
use ct_base::Memory;
use ct_keep::KeepFault;
use ct_site::{Disk, Failed};
use pg_cache::PageCache;
use pg_directory::{EntryAt, NewDirectory, inner_page, leaf_page, make_directory};
use pg_journal::{ChangedPages, Journal, root_bytes};
use pg_window::Sheet;
use std::alloc::Global;

/// The root and the pages of a new directory. The image of each is made of what is in memory.
#[derive(Drop)]
struct DirectoryPages<'a> {
    made: &'a NewDirectory,
    numbers: &'a [u32],
    homes: u32,
    ghost are: { numbers.now ≡ batch_numbers made.now } by { numbers_once numbers.now (batch_numbers made.now) },
    ghost between: { AreBetween 2 (2 ^ 32) (directory_batch homes made.now) } by { between_once 2 (2 ^ 32) (directory_batch homes made.now) },
}

impl ChangedPages for DirectoryPages<'_> {
    ghost pages = { λ p. directory_batch p.homes p.made.now };

    fn numbers(&self) -> &[u32] {
        self.numbers
    }

    fn image(&self, index: usize) -> [u8; 4096] {
        if index == 0 {
            return root_bytes(self.homes, self.made.top.page);
        }
        let at = index - 1;
        let count = self.made.leaves.len();
        if at < count {
            return leaf_page(&self.made.leaves[at].entries);
        }
        let page = &self.made.upper[at - count];
        inner_page(page.level, &page.children)
    }
}

/// Commits a new directory, and a root that names it: all of it or nothing. It takes no memory.
fn commit_directory<D: Disk>(
    disk: &mut D,
    cache: &mut PageCache,
    journal: &mut Journal,
    made: &NewDirectory,
    numbers: &[u32],
    homes: u32,
) -> Result<(), KeepFault>
    requires cache { IsCacheOf (D.disk disk.old) journal.old cache.old }
    requires are { numbers.now ≡ batch_numbers made.now }
    requires between { AreBetween 2 (2 ^ 32) (directory_batch homes made.now) }
    requires may { MayCommit journal.old (directory_batch homes made.now) }
    ensures moments { OverPages (D.disk disk.old) journal.old (λ pages. Leaves (D.disk disk.old) (D.disk disk.new) (IsEither pages (directory_batch homes made.now))) }
    ensures stands { OverPages (D.disk disk.old) journal.old (λ pages. OnOk result (DiskStands (D.disk disk.new) journal.new (changed (directory_batch homes made.now) pages))) }
    ensures cache { OnOk result (IsCacheOf (D.disk disk.new) journal.new cache.new) }
    ensures homes { OnOk result (journal.new ≡ homes) }
    ensures err { OnErr result (journal.new ≡ journal.old) }
    ensures disk { IfErr result (λ fault. fault ≡ KeepFault.Disk) }
    ensures length { Lengthens (commit_end journal.old (directory_batch homes made.now)) (D.disk disk.old) (D.disk disk.new) }
    ensures commits { CommitsPages (D.disk disk.old) (D.disk disk.new) result }
{
    let pages = DirectoryPages {
        made,
        numbers,
        homes,
    };
    let Ok(()) = cache.commit(disk, journal, &pages) else {
        return Err(KeepFault::Disk);
    };
    Ok(())
}

/// The numbers of the root and of the pages of a new directory, in order.
fn numbers_of(alloc: Global, made: &NewDirectory) -> Result<Vec<u32>, Memory>
    ensures { IfOk result (λ numbers. numbers.items ≡ batch_numbers made.now) }
{
    let mut numbers = Vec::new(alloc);
    numbers.push(2)?;
    for leaf in &made.leaves {
        numbers.push(leaf.number)?;
    }
    for page in &made.upper {
        numbers.push(page.number)?;
    }
    Ok(numbers)
}

/// Whether a place is at least `low` and below `end`.
fn is_between(place: usize, low: usize, end: usize) -> bool
    ensures yes { IsTrue result → (low ≤ place) × (place < end) }
    ensures no { IsFalse result → low ≤ place → place < end → ⊥ }
{
    place >= low && place < end
}

/// Whether places rise, below this one.
fn are_rising(places: &[usize], end: usize) -> bool
    ensures yes { IsTrue result → AreRising 0 end places.now }
    ensures no { IsFalse result → AreRising 0 end places.now → ⊥ }
{
    let mut low = 0;
    for i in 0..places.len() {
        let place = places[i];
        if !is_between(place, low, end) {
            return false;
        }
        low = place + 1;
    }
    true
}

/// How many home pages there are with a new directory, whose first pages are of so many free ones.
fn homes_with(homes: u32, free: usize, made: &NewDirectory) -> u32
    requires { homes + ((length made.now.leaves.items + length made.now.upper.items) - free) ≤ 2 ^ 31 }
    ensures { result ≡ homes + ((length made.now.leaves.items + length made.now.upper.items) - free) }
{
    let taken = made.leaves.len() + made.upper.len();
    homes + taken.saturating_sub(free) as u32
}

/// The number of the page at the top of a new directory.
fn top_of(made: &NewDirectory) -> u32
    ensures is { result ≡ made.now.top.page }
    ensures small { result < 2 ^ 32 }
{
    made.top.page
}

/// How many pages a new directory has.
pub(crate) fn pages_taken(made: &NewDirectory) -> usize
    ensures { result ≡ new_pages made.now }
{
    made.leaves.len() + made.upper.len()
}

/// The places without so many of the first.
fn without_first(places: &[usize], count: usize) -> &[usize]
    requires { count ≤ length places.now }
    ensures { result.now ≡ drop count places.now }
{
    &places[count..]
}

/// The pages of a store of so many homes with a new directory, whose first pages were these free ones. Nothing is in memory of them.
fn sheets_with(
    alloc: Global,
    homes: u32,
    free: &[usize],
    made: &NewDirectory,
) -> Result<Vec<Sheet>, Memory>
    requires { 3 ≤ homes }
    ensures { IfOk result (λ sheets. IsResting sheets.items homes (drop (new_pages made.now) free.now)) }
{
    let taken = pages_taken(made).min(free.len());
    let sheets = sheets_at_rest(alloc, homes, without_first(free, taken))?;
    Ok(sheets)
}

/// Gives a store without a directory one, in one commit: the leaves and the pages above them of entries whose places are given in order,
/// on some of these free pages and behind all others. At each moment the disk recovers to the same map. It takes memory for the places of
/// the entries and some bytes a page. Afterwards nothing is in memory of its pages. After Disk the store is loaded again.
pub(crate) fn direct_store<D: Disk>(
    alloc: Global,
    disk: &mut D,
    cache: &mut PageCache,
    journal: &mut Journal,
    sheets: &mut Vec<Sheet>,
    places: &[EntryAt],
    free: &[usize],
) -> Result<NewDirectory, KeepFault>
    requires cache { IsCacheOf (D.disk disk.old) journal.old cache.old }
    requires some { 1 ≤ length places.now }
    ensures moments { (s : IsPlainStore (D.disk disk.old) journal.old places.now free.now) → LeavesMap (D.disk disk.old) (D.disk disk.new) s.held }
    ensures stands { (s : IsPlainStore (D.disk disk.old) journal.old places.now free.now) → IfOk result (λ made. HoldsDirectory (D.disk disk.new) journal.new made places.now free.now s.pages s.held) }
    ensures made { IfOk result (λ made. IsNewDirectory journal.old free.now places.now made) }
    ensures homes { IfOk result (λ made. journal.new ≡ homes_directed journal.old free.now made) }
    ensures cache { OnOk result (IsCacheOf (D.disk disk.new) journal.new cache.new) }
    ensures rests { IfOk result (λ made. IsResting sheets.new.items journal.new (drop (new_pages made) free.now)) }
    ensures kept { OnErr result (sheets.new ≡ sheets.old) }
    ensures err { OnErr result (journal.new ≡ journal.old) }
    ensures memory { result ≡ Err KeepFault.Memory → IsSame (D.disk disk.old) (D.disk disk.new) × (cache.new ≡ cache.old) }
    ensures full { result ≡ Err KeepFault.Full → ⊥ }
    ensures length { 2 ^ 31 < homes_taken free.now journal.old (2 * leaves_for (length places.now)) ⊎ Lengthens (direct_end journal.old (length places.now)) (D.disk disk.old) (D.disk disk.new) }
    ensures commits { CommitsPages (D.disk disk.old) (D.disk disk.new) result }
{
    let homes = journal.homes();
    if !are_rising(free, homes as usize - 3) {
        return Err(KeepFault::Memory);
    }
    let Ok(found) = make_directory(alloc, places, free, homes) else {
        return Err(KeepFault::Memory);
    };
    let Some(made) = found else {
        let Failed = journal.fill(disk);
        return Err(KeepFault::Disk);
    };
    let Ok(numbers) = numbers_of(alloc, &made) else {
        return Err(KeepFault::Memory);
    };
    let after = homes_with(homes, free.len(), &made);
    let Ok(rested) = sheets_with(alloc, after, free, &made) else {
        return Err(KeepFault::Memory);
    };
    let _top = top_of(&made);
    match commit_directory(disk, cache, journal, &made, &numbers, after) {
        Ok(()) => {
            *sheets = rested;
            Ok(made)
        }
        Err(fault) => Err(fault),
    }
}
