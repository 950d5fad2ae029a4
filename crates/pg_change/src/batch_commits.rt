//! The commit of a batch.

ghost use Rattle.std.specs.Prelude.{◌≡◌, ◌≢◌, ◌≤◌, ◌<◌, ◌+◌, ◌^◌, ◌∷◌, IfErr, IfOk, IsTrue, OnErr, OnOk, List, ℕ, length};
ghost use Rattle.std.specs.List.{Contains};
ghost use Rattle.ct_site.specs.Disks.{Leaves};
ghost use Rattle.ct_site.specs.Lengths.{Lengthens};
ghost use Rattle.pg_batch.specs.BatchPages.{batch_end};
ghost use Rattle.pg_cache.specs.Caches.{IsCacheOf};
ghost use Rattle.pg_map.specs.Kinds.{IsKind};
ghost use Rattle.pg_directory.specs.Looking.{DiskHolds};
ghost use Rattle.pg_directory.specs.Trees.{bytes_of_page, StorePage};
ghost use Rattle.pg_window.specs.Sheets.{sheet_kind};
ghost use Rattle.pg_plan.specs.Touched.{AreTouched};
ghost use Rattle.pg_change.specs.BatchCommits.{commit_pages, AreCommitPages, IsBatchEnd, IsEitherStore, MayWrite};
ghost use Rattle.pg_change.specs.Commits.{CommitsPages};
ghost use Rattle.pg_change.specs.Next.{HaveKinds, image_at, next_pages};
ghost use Rattle.pg_change.specs.Once.{commit_once, kinds_once};

use crate::images::DirectoryImages;
use ct_base::Memory;
use ct_keep::KeepFault;
use ct_site::Disk;
use pg_cache::PageCache;
use pg_journal::{ChangedPages, Journal, root_bytes};
use pg_plan::Draft;
use pg_window::Sheet;
use std::alloc::Global;
use std::marker::Model;

/// The numbers of the pages that a commit writes: the root's, and then those of the pages that a draft changed, as which it is seen.
#[derive(Drop)]
pub struct BatchNumbers {
    numbers: Vec<u32>,
}

impl Model for BatchNumbers {
    ghost use Rattle.std.specs.Prelude.{◌≡◌, ◌∷◌, ℕ, List, drop};

    ghost Value = { List ℕ };

    ghost view = { λ b. drop 1 b.numbers.items };

    ghost invariant = { λ b. b.numbers.items ≡ 2 ∷ drop 1 b.numbers.items };
}

impl BatchNumbers {
    /// Those of a draft. They take four bytes a change. Where a page that was changed couldn't stand in a store, as over the bytes of no store,
    /// it answers Memory, too.
    pub fn of_draft(alloc: Global, draft: &Draft) -> Result<BatchNumbers, Memory>
        requires { 3 + length draft.now.now ≤ 2 ^ 31 }
        ensures touched { IfOk result (λ numbers. AreTouched draft.now numbers) }
        ensures kinds { IfOk result (λ numbers. HaveKinds draft.now.now numbers) }
    {
        let mut numbers = draft.touched_numbers(alloc)?;
        if !may_stand(draft, &numbers) {
            return Err(Memory);
        }
        numbers.insert(0, 2)?;
        Ok(BatchNumbers { numbers })
    }

    /// The root's number and the others.
    fn all(&self) -> &[u32]
        ensures { result.now ≡ 2 ∷ self.now }
    {
        &self.numbers
    }

    /// The numbers behind the root's.
    pub fn behind_root(&self) -> &[u32]
        ensures { result.now ≡ self.now }
    {
        &self.numbers[1..]
    }
}

/// Whether a page of so many bytes of a value may stand before the page of this number, or as the last one where that is 0.
fn is_long(next: u32, count: usize) -> bool
    ensures { IsTrue result → (next < 2 ^ 32) × (1 ≤ count) × (count ≤ 4088) × (next ≢ 0 → count ≡ 4088) }
{
    count == 4088 || (next == 0 && count >= 1 && count <= 4088)
}

/// Whether a page may stand in a store.
fn is_page(sheet: &Sheet) -> bool
    ensures { IsTrue result → IsKind (sheet_kind sheet.now) }
{
    match sheet {
        Sheet::Free | Sheet::Away => true,
        Sheet::Slotted(page) => {
            let _ = page.count();
            true
        }
        Sheet::Long { next, bytes } => is_long(*next, bytes.len()),
    }
}

/// Whether the pages of these numbers may all stand in a store.
fn may_stand(draft: &Draft, numbers: &[u32]) -> bool
    requires { (n : ℕ) → Contains numbers.now n → (3 ≤ n) × (n < 3 + length draft.now.now) }
    ensures { IsTrue result → HaveKinds draft.now.now numbers.now }
{
    for i in 0..numbers.len() {
        if !is_page(draft.sheet(numbers[i] as usize - 3)) {
            return false;
        }
    }
    true
}

/// The root and the pages of these numbers. The image of each is made of what is in memory.
#[derive(Drop)]
struct BatchPages<'a> {
    draft: &'a Draft,
    numbers: &'a BatchNumbers,
    images: &'a DirectoryImages,
    top: u32,
    ghost count: { 3 + length draft.now.now ≤ 2 ^ 31 },
    ghost kinds: { HaveKinds draft.now.now numbers.now } by { kinds_once draft.now.now numbers.now },
    ghost between: { AreCommitPages draft.now.now images.now numbers.now top } by { commit_once draft.now.now images.now numbers.now top },
}

impl ChangedPages for BatchPages<'_> {
    ghost pages = { λ p. commit_pages p.draft.now.now p.images.now p.numbers.now p.top };

    fn numbers(&self) -> &[u32] {
        self.numbers.all()
    }

    fn image(&self, index: usize) -> [u8; 4096] {
        if index == 0 {
            return root_bytes(self.draft.count() as u32 + 3, self.top);
        }
        page_image(self.draft, self.images, self.numbers.all()[index])
    }
}

/// The bytes that are written under a number: those of its page of the directory, or else those of the draft's page.
fn page_image(draft: &Draft, images: &DirectoryImages, number: u32) -> [u8; 4096]
    requires may { MayWrite draft.now.now images.now number }
    ensures { result ≡ bytes_of_page (image_at draft.now.now images.now number) }
{
    match images.page(number) {
        Some(bytes) => *bytes,
        None => draft.sheet(number as usize - 3).bytes(),
    }
}

/// Commits the pages of these numbers as they are in a draft and in the pages of the directory that are to be written, with a root that names
/// this page as the top of the directory, or 0 where there is none: all of it or nothing. It takes no memory. After Disk the store is loaded
/// again.
pub fn commit_batch<D: Disk>(
    disk: &mut D,
    cache: &mut PageCache,
    journal: &mut Journal,
    draft: &Draft,
    numbers: &BatchNumbers,
    images: &DirectoryImages,
    top: u32,
) -> Result<(), KeepFault>
    requires cache { IsCacheOf (D.disk disk.old) journal.old cache.old }
    requires end { IsBatchEnd draft.now images.now numbers.now journal.old }
    ensures moments { (top0 : ℕ) (pages : List StorePage) → DiskHolds (D.disk disk.old) journal.old top0 pages
        → Leaves (D.disk disk.old) (D.disk disk.new) (IsEitherStore top0 pages top (next_pages pages draft.now.now images.now numbers.now)) }
    ensures holds { (top0 : ℕ) (pages : List StorePage) → DiskHolds (D.disk disk.old) journal.old top0 pages
        → OnOk result (DiskHolds (D.disk disk.new) journal.new top (next_pages pages draft.now.now images.now numbers.now)) }
    ensures cache { OnOk result (IsCacheOf (D.disk disk.new) journal.new cache.new) }
    ensures homes { OnOk result (journal.new ≡ 3 + length draft.now.now) }
    ensures err { OnErr result (journal.new ≡ journal.old) }
    ensures disk { IfErr result (λ fault. fault ≡ KeepFault.Disk) }
    ensures length { Lengthens (batch_end (3 + length draft.now.now) (length numbers.now)) (D.disk disk.old) (D.disk disk.new) }
    ensures named { top < 2 ^ 32 }
    ensures commits { CommitsPages (D.disk disk.old) (D.disk disk.new) result }
{
    draft.keep_shape();
    let pages = BatchPages {
        draft,
        numbers,
        images,
        top,
    };
    let Ok(()) = cache.commit(disk, journal, &pages) else {
        return Err(KeepFault::Disk);
    };
    Ok(())
}
