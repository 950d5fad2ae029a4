//! The journal.

ghost use Rattle.std.specs.Prelude.{◌≡◌, ◌≢◌, ◌≤◌, ◌+◌, ◌*◌, ◌^◌, false, ℕ, List, Option, Some, Err, IfOk, OnOk, OnErr, length, max};
ghost use Rattle.ct_site.specs.Disks.{IsSame, IsSettled, Leaves, Works};
ghost use Rattle.pg_journal.specs.Births.{IsUnbornAs};
ghost use Rattle.pg_journal.specs.Looking.{AnswersBy, IsNoStore, IsSized, Loaded, Loads, WritesNothing};
ghost use Rattle.pg_journal.specs.Pages.{AreBetween, Has, changed, homes_in, homes_of};
ghost use Rattle.pg_journal.specs.Recovered.{Alike, IsOnlyRead, IsRecovered, IsStore, gate, number_pages};
ghost use Rattle.pg_journal.specs.Staging.{OverGoal};
ghost use Rattle.ct_site.specs.Lengths.{IsWithin, Lengthens};
ghost use Rattle.pg_journal.specs.Standing.{commit_end, homes_with, IsEither, MayCommit, DiskStands, OverPages};
ghost use Rattle.pg_journal.specs.Syncs.{SyncsAtMost};

use crate::batch_reading::look_open;
use crate::births::make_store;
use crate::changed_pages::{ChangedPages, homes_with};
use crate::faults::LoadFault;
use crate::reading::{has_mark, homes_of_closed, read_byte, unborn};
use crate::stages::{fill, put_home, set_gate, stage};
use ct_site::{Disk, Failed};
use std::alloc::Global;
use std::marker::Model;

/// The journal of a store, which knows how many home pages there are.
#[derive(Debug, Drop)]
pub struct Journal {
    homes: u32,
}

impl Model for Journal {
    ghost use Rattle.std.specs.Prelude.{ℕ};
    ghost use Rattle.pg_journal.specs.JournalFields.{homes_kept, IsJournal};

    ghost Value = { ℕ };

    ghost view = { homes_kept };

    ghost invariant = { IsJournal };
}

impl Journal {
    /// Makes the store on an unborn disk, or puts home a batch that a crash has left, and gives the journal of the store. At
    /// each moment the disk recovers to what it did. NotAStore exactly where it recovers to no pages. The memory for a batch
    /// is taken before anything is written, so after NotAStore and after Memory the disk is as it was; and a file that isn't
    /// unborn and has no batch under way is only read, whatever the answer. What a crash leaves is told where nothing was pending.
    /// It syncs three times at most. A file that is neither unborn nor a store by its mark and its length is answered by NotAStore,
    /// or by Disk; and memory is taken for the batch behind an open gate alone.
    pub fn load<D: Disk>(alloc: Global, disk: &mut D) -> Result<Journal, LoadFault>
        ensures moments { (image : List ℕ) → IsSettled (D.disk disk.old) image → Leaves (D.disk disk.old) (D.disk disk.new) (Alike image) }
        ensures loaded { (image : List ℕ) → IsSettled (D.disk disk.old) image → IfOk result (λ journal. Loaded image (D.disk disk.new) journal) }
        ensures no_store { (image : List ℕ) → (D.disk disk.old).image ≡ Some image → result ≡ Err LoadFault.NotAStore → IsNoStore image }
        ensures same { WritesNothing result (D.disk disk.old) (D.disk disk.new) }
        ensures kept { (image : List ℕ) → (D.disk disk.old).image ≡ Some image → IsOnlyRead image → IsSame (D.disk disk.old) (D.disk disk.new) }
        ensures answers { (image : List ℕ) → (D.disk disk.old).image ≡ Some image → AnswersBy image result }
        ensures length { Lengthens 12288 (D.disk disk.old) (D.disk disk.new) }
        ensures syncs { SyncsAtMost 3 (D.disk disk.old) (D.disk disk.new) }
        ensures loads { Loads (D.disk disk.old) (D.disk disk.new) result }
    {
        let Ok(size) = disk.size() else {
            return Err(LoadFault::Disk);
        };
        let Ok(found) = unborn(disk, size) else {
            return Err(LoadFault::Disk);
        };
        if let Some(empty) = found {
            return load_unborn(disk, empty);
        }
        if size < 12288 {
            return Err(LoadFault::NotAStore);
        }
        let Ok(marked) = has_mark(disk) else {
            return Err(LoadFault::Disk);
        };
        if !marked {
            return Err(LoadFault::NotAStore);
        }
        load_store(alloc, disk, size)
    }

    /// How many home pages there are, page 0 and page 1 counted.
    pub fn homes(&self) -> u32
        ensures homes { result ≡ self.now }
        ensures least { 3 ≤ result }
        ensures most { result ≤ 2 ^ 31 }
    {
        self.homes
    }

    /// Puts the pages of a batch on those of the store, all of them or none. At each moment the recovered pages are the old
    /// ones or those with the batch put on them, and after Ok the latter. After an error the journal is loaded again. It syncs
    /// four times at most.
    pub fn commit<D: Disk, B: ChangedPages>(
        &mut self,
        disk: &mut D,
        batch: &B,
    ) -> Result<(), Failed>
        requires { MayCommit self.old (B.pages batch.now) }
        ensures moments { OverPages (D.disk disk.old) self.old (λ pages. Leaves (D.disk disk.old) (D.disk disk.new) (IsEither pages (B.pages batch.now))) }
        ensures stands { OverPages (D.disk disk.old) self.old (λ pages. OnOk result (DiskStands (D.disk disk.new) self.new (changed (B.pages batch.now) pages))) }
        ensures length { Lengthens (commit_end self.old (B.pages batch.now)) (D.disk disk.old) (D.disk disk.new) }
        ensures syncs { SyncsAtMost 4 (D.disk disk.old) (D.disk disk.new) }
        ensures works { Works (D.disk disk.old) (D.disk disk.new) result }
        ensures homes { OnOk result (self.new ≡ homes_with self.old (B.pages batch.now)) }
        ensures err { OnErr result (self.new ≡ self.old) }
    {
        let homes = homes_with(batch, self.homes);
        commit_pages(disk, self.homes, homes, batch)?;
        self.homes = homes;
        Ok(())
    }

    /// Lengthens the file by zeros past its home pages, a page at a time, until a write fails: what a commit does that would need more
    /// pages than there are numbers. At each moment the recovered pages are the same.
    pub fn fill<D: Disk>(&self, disk: &mut D) -> Failed
        ensures moments { (pages : List (List ℕ)) → DiskStands (D.disk disk.old) self.now pages
            → Leaves (D.disk disk.old) (D.disk disk.new) (λ image. IsRecovered image pages) }
        ensures syncs { (D.disk disk.new).syncs ≡ (D.disk disk.old).syncs }
        ensures works { Works {T = Unit {0}} (D.disk disk.old) (D.disk disk.new) (Err result) }
    {
        fill(disk)
    }
}

/// Makes an unborn file a store.
fn load_unborn<D: Disk>(disk: &mut D, empty: bool) -> Result<Journal, LoadFault>
    requires within { empty ≡ false → IsWithin 1 (D.disk disk.old) }
    ensures moments { (image : List ℕ) → IsSettled (D.disk disk.old) image → IsUnbornAs empty image → Leaves (D.disk disk.old) (D.disk disk.new) (Alike image) }
    ensures loaded { (image : List ℕ) → IsSettled (D.disk disk.old) image → IsUnbornAs empty image
        → IfOk result (λ journal. Loaded image (D.disk disk.new) journal) }
    ensures store { result ≡ Err LoadFault.NotAStore → ⊥ }
    ensures memory { result ≡ Err LoadFault.Memory → ⊥ }
    ensures same { WritesNothing result (D.disk disk.old) (D.disk disk.new) }
    ensures length { Lengthens 12288 (D.disk disk.old) (D.disk disk.new) }
    ensures syncs { SyncsAtMost 3 (D.disk disk.old) (D.disk disk.new) }
    ensures loads { Loads (D.disk disk.old) (D.disk disk.new) result }
{
    match make_store(disk, empty) {
        Ok(()) => Ok(Journal { homes: 3 }),
        Err(Failed) => Err(LoadFault::Disk),
    }
}

/// Loads a store, whose gate says how.
fn load_store<D: Disk>(alloc: Global, disk: &mut D, size: u64) -> Result<Journal, LoadFault>
    requires sized { IsSized size (D.disk disk.old) }
    requires long { 12288 ≤ size }
    requires store { (image : List ℕ) → (D.disk disk.old).image ≡ Some image → IsStore image }
    ensures moments { (image : List ℕ) → IsSettled (D.disk disk.old) image → Leaves (D.disk disk.old) (D.disk disk.new) (Alike image) }
    ensures loaded { (image : List ℕ) → IsSettled (D.disk disk.old) image → IfOk result (λ journal. Loaded image (D.disk disk.new) journal) }
    ensures no_store { (image : List ℕ) → (D.disk disk.old).image ≡ Some image → result ≡ Err LoadFault.NotAStore → IsNoStore image }
    ensures same { WritesNothing result (D.disk disk.old) (D.disk disk.new) }
    ensures kept { (image : List ℕ) → (D.disk disk.old).image ≡ Some image → gate image ≢ 1 → IsSame (D.disk disk.old) (D.disk disk.new) }
    ensures answers { (image : List ℕ) → (D.disk disk.old).image ≡ Some image → AnswersBy image result }
    ensures length { Lengthens 0 (D.disk disk.old) (D.disk disk.new) }
    ensures syncs { SyncsAtMost 2 (D.disk disk.old) (D.disk disk.new) }
    ensures loads { Loads (D.disk disk.old) (D.disk disk.new) result }
{
    let Ok(gate) = read_byte(disk, 4096) else {
        return Err(LoadFault::Disk);
    };
    if gate == 1 {
        load_open(alloc, disk, size)
    } else {
        load_closed(disk, size)
    }
}

/// Loads a store whose gate is closed.
fn load_closed<D: Disk>(disk: &mut D, size: u64) -> Result<Journal, LoadFault>
    requires sized { IsSized size (D.disk disk.old) }
    requires long { 12288 ≤ size }
    requires store { (image : List ℕ) → (D.disk disk.old).image ≡ Some image → IsStore image }
    requires gate { (image : List ℕ) → (D.disk disk.old).image ≡ Some image → gate image ≢ 1 }
    ensures loaded { (image : List ℕ) → IsSettled (D.disk disk.old) image → IfOk result (λ journal. Loaded image (D.disk disk.new) journal) }
    ensures no_store { (image : List ℕ) → (D.disk disk.old).image ≡ Some image → result ≡ Err LoadFault.NotAStore → IsNoStore image }
    ensures memory { result ≡ Err LoadFault.Memory → ⊥ }
    ensures same { IsSame (D.disk disk.old) (D.disk disk.new) }
    ensures loads { Loads (D.disk disk.old) (D.disk disk.new) result }
{
    let Ok(found) = homes_of_closed(disk, size) else {
        return Err(LoadFault::Disk);
    };
    let Some(homes) = found else {
        return Err(LoadFault::NotAStore);
    };
    Ok(Journal { homes })
}

/// Loads a store whose gate is open: its batch is put home, and the gate is closed.
fn load_open<D: Disk>(alloc: Global, disk: &mut D, size: u64) -> Result<Journal, LoadFault>
    requires sized { IsSized size (D.disk disk.old) }
    requires long { 12288 ≤ size }
    requires store { (image : List ℕ) → (D.disk disk.old).image ≡ Some image → IsStore image }
    requires gate { (image : List ℕ) → (D.disk disk.old).image ≡ Some image → gate image ≡ 1 }
    ensures moments { (image : List ℕ) → IsSettled (D.disk disk.old) image → Leaves (D.disk disk.old) (D.disk disk.new) (Alike image) }
    ensures loaded { (image : List ℕ) → IsSettled (D.disk disk.old) image → IfOk result (λ journal. Loaded image (D.disk disk.new) journal) }
    ensures no_store { (image : List ℕ) → (D.disk disk.old).image ≡ Some image → result ≡ Err LoadFault.NotAStore → IsNoStore image }
    ensures same { WritesNothing result (D.disk disk.old) (D.disk disk.new) }
    ensures length { Lengthens 0 (D.disk disk.old) (D.disk disk.new) }
    ensures syncs { SyncsAtMost 2 (D.disk disk.old) (D.disk disk.new) }
    ensures loads { Loads (D.disk disk.old) (D.disk disk.new) result }
{
    let Some((batch, homes)) = look_open(alloc, disk, size)? else {
        return Err(LoadFault::NotAStore);
    };
    let Ok(()) = finish(disk, &batch) else {
        return Err(LoadFault::Disk);
    };
    Ok(Journal { homes })
}

/// Puts a batch home, and closes the gate.
fn finish<D: Disk, B: ChangedPages>(disk: &mut D, batch: &B) -> Result<(), Failed>
    requires within { IsWithin 4097 (D.disk disk.old) }
    requires inside { (i : ℕ) → Has (B.pages batch.now) i → IsWithin (4096 * i + 4096) (D.disk disk.old) }
    ensures moments { OverGoal (D.disk disk.old) (B.pages batch.now) (λ goal. Leaves (D.disk disk.old) (D.disk disk.new) (λ x. IsRecovered x (homes_of goal))) }
    ensures stands { OverGoal (D.disk disk.old) (B.pages batch.now) (λ goal. OnOk result (DiskStands (D.disk disk.new) (homes_in (goal 2)) (homes_of goal))) }
    ensures length { Lengthens 0 (D.disk disk.old) (D.disk disk.new) }
    ensures syncs { SyncsAtMost 2 (D.disk disk.old) (D.disk disk.new) }
    ensures works { Works (D.disk disk.old) (D.disk disk.new) result }
{
    put_home(disk, batch)?;
    set_gate(disk, 0)
}

/// Puts pages on those of a store of so many homes, which has so many afterwards.
fn commit_pages<D: Disk, B: ChangedPages>(
    disk: &mut D,
    homes: u32,
    after: u32,
    batch: &B,
) -> Result<(), Failed>
    requires may { MayCommit homes (B.pages batch.now) }
    requires after { after ≡ homes_with homes (B.pages batch.now) }
    requires least { 3 ≤ homes }
    requires most { homes ≤ 2 ^ 31 }
    ensures moments { OverPages (D.disk disk.old) homes (λ pages. Leaves (D.disk disk.old) (D.disk disk.new) (IsEither pages (B.pages batch.now))) }
    ensures stands { OverPages (D.disk disk.old) homes (λ pages. OnOk result (DiskStands (D.disk disk.new) after (changed (B.pages batch.now) pages))) }
    ensures length { Lengthens (4096 * (max homes after + number_pages (length (B.pages batch.now)) + length (B.pages batch.now))) (D.disk disk.old) (D.disk disk.new) }
    ensures syncs { SyncsAtMost 4 (D.disk disk.old) (D.disk disk.new) }
    ensures works { Works (D.disk disk.old) (D.disk disk.new) result }
{
    let place = homes.max(after);
    stage(disk, place, batch)?;
    set_gate(disk, 1)?;
    finish(disk, batch)
}
