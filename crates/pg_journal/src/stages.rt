//! The four steps of a commit, each with one sync.

ghost use Rattle.std.specs.Prelude.{◌≡◌, ◌≤◌, ◌<◌, ◌+◌, ◌-◌, ◌*◌, ◌^◌, ◌++◌, ℕ, List, Option, Some, Ok, Err, OnOk, length};
ghost use Rattle.std.specs.Int.{to_be_bytes, w32};
ghost use Rattle.ct_base.specs.Zeros.{zeros};
ghost use Rattle.ct_site.specs.Disks.{IsSettled, Leaves, Works};
ghost use Rattle.ct_site.specs.Lengths.{Lengthens, IsWithin};
ghost use Rattle.ct_site.specs.Writing.{Writes};
ghost use Rattle.pg_journal.specs.Pages.{Has, AreBetween};
ghost use Rattle.pg_journal.specs.Recovered.{batch_bytes, number_pages};
ghost use Rattle.pg_journal.specs.Staging.{Staged, IsGateWrite, IsGateSet, IsSettling, AtHome, WritesUpTo};
ghost use Rattle.pg_journal.specs.Standing.{IsShut, DiskStands};
ghost use Rattle.pg_journal.specs.Syncs.{SyncsAtMost};

use crate::changed_pages::ChangedPages;
use crate::writing::{write, write_images, write_numbers, write_zeros};
use ct_site::{Disk, Failed};

/// Writes zeros from the end of the file up to this place, where it ends before.
fn lengthen<D: Disk>(disk: &mut D, end: u64) -> Result<(), Failed>
    requires fits { end ≤ 2 ^ 43 }
    ensures writes { WritesUpTo end (D.disk disk.old) (D.disk disk.new) result }
    ensures within { OnOk result (IsWithin end (D.disk disk.new)) }
    ensures syncs { (D.disk disk.new).syncs ≡ (D.disk disk.old).syncs }
    ensures works { Works (D.disk disk.old) (D.disk disk.new) result }
{
    let size = disk.size()?;
    if size < end {
        write_zeros(disk, size, end - size)
    } else {
        Ok(())
    }
}

/// Writes a page of zeros.
fn write_zero_page<D: Disk>(disk: &mut D, at: u64) -> Result<(), Failed>
    requires within { IsWithin at (D.disk disk.old) }
    ensures writes { Writes at (zeros 4096) (D.disk disk.old) (D.disk disk.new) result }
    ensures inside { OnOk result (at + 4096 ≤ 2 ^ 43) }
    ensures syncs { (D.disk disk.new).syncs ≡ (D.disk disk.old).syncs }
    ensures works { Works (D.disk disk.old) (D.disk disk.new) result }
{
    disk.write_at(at, &[0; 4096])
}

/// Writes zeros from this place on, at which the file ends, a page at a time, until a write fails.
fn fill_from<D: Disk>(disk: &mut D, size: u64) -> Failed
    requires { IsWithin size (D.disk disk.old) }
    ensures moments { (homes : ℕ) (ps : List (List ℕ)) → 4096 * homes ≤ size → ((image : List ℕ) → (D.disk disk.old).may_leave image → IsShut homes ps image)
        → Leaves (D.disk disk.old) (D.disk disk.new) (IsShut homes ps) }
    ensures syncs { (D.disk disk.new).syncs ≡ (D.disk disk.old).syncs }
    ensures works { Works {T = Unit {0}} (D.disk disk.old) (D.disk disk.new) (Err result) }
{
    let mut at = size;
    loop {
        match write_zero_page(disk, at) {
            Ok(()) => at += 4096,
            Err(failed) => return failed,
        }
    }
}

/// Writes zeros past the end of the file, a page at a time, until a write fails.
pub(crate) fn fill<D: Disk>(disk: &mut D) -> Failed
    ensures moments { (homes : ℕ) (ps : List (List ℕ)) → DiskStands (D.disk disk.old) homes ps → Leaves (D.disk disk.old) (D.disk disk.new) (IsShut homes ps) }
    ensures syncs { (D.disk disk.new).syncs ≡ (D.disk disk.old).syncs }
    ensures works { Works {T = Unit {0}} (D.disk disk.old) (D.disk disk.new) (Err result) }
{
    match disk.size() {
        Ok(size) => fill_from(disk, size),
        Err(failed) => failed,
    }
}

/// Writes a batch at this page.
fn write_batch<D: Disk, B: ChangedPages>(disk: &mut D, place: u32, batch: &B) -> Result<(), Failed>
    requires within { IsWithin (4096 * place) (D.disk disk.old) }
    requires place { place ≤ 2 ^ 31 }
    requires between { AreBetween 2 place (B.pages batch.now) }
    ensures writes { Writes (4096 * place) (batch_bytes (B.pages batch.now)) (D.disk disk.old) (D.disk disk.new) result }
    ensures syncs { (D.disk disk.new).syncs ≡ (D.disk disk.old).syncs }
    ensures works { Works (D.disk disk.old) (D.disk disk.new) result }
{
    let at = 4096 * place as u64;
    let numbers = batch.numbers();
    write_numbers(disk, at, numbers)?;
    let number_pages = (numbers.len() as u64 + 1023) / 1024;
    write_images(disk, at + 4096 * number_pages, batch)
}

/// Two numbers of four bytes each.
fn two_numbers(first: u32, second: u32) -> [u8; 8]
    ensures { result ≡ to_be_bytes w32 first ++ to_be_bytes w32 second }
{
    let [a, b, c, d] = first.to_be_bytes();
    let [e, f, g, h] = second.to_be_bytes();
    [a, b, c, d, e, f, g, h]
}

/// Writes a batch behind the homes, and says in page 1 where it is.
pub(crate) fn stage<D: Disk, B: ChangedPages>(
    disk: &mut D,
    place: u32,
    batch: &B,
) -> Result<(), Failed>
    requires least { 3 ≤ place }
    requires place { place ≤ 2 ^ 31 }
    requires some { 1 ≤ length (B.pages batch.now) }
    requires between { AreBetween 2 place (B.pages batch.now) }
    ensures moments { (homes : ℕ) (ps : List (List ℕ)) → homes ≤ place → DiskStands (D.disk disk.old) homes ps
        → Leaves (D.disk disk.old) (D.disk disk.new) (IsShut homes ps) }
    ensures staged { (homes : ℕ) (ps : List (List ℕ)) → homes ≤ place → DiskStands (D.disk disk.old) homes ps
        → OnOk result (Staged (D.disk disk.new) homes ps place (B.pages batch.now)) }
    ensures within { OnOk result (IsWithin (4096 * place) (D.disk disk.new)) }
    ensures length { Lengthens (4096 * (place + number_pages (length (B.pages batch.now)) + length (B.pages batch.now))) (D.disk disk.old) (D.disk disk.new) }
    ensures syncs { SyncsAtMost 1 (D.disk disk.old) (D.disk disk.new) }
    ensures works { Works (D.disk disk.old) (D.disk disk.new) result }
{
    lengthen(disk, 4096 * place as u64)?;
    write_batch(disk, place, batch)?;
    let count = batch.numbers().len() as u32;
    write(disk, 4104, &two_numbers(place, count))?;
    disk.sync()
}

/// Writes the gate.
pub(crate) fn set_gate<D: Disk>(disk: &mut D, gate: u8) -> Result<(), Failed>
    requires within { IsWithin 4097 (D.disk disk.old) }
    ensures moments { (image : List ℕ) → IsSettled (D.disk disk.old) image → Leaves (D.disk disk.old) (D.disk disk.new) (IsGateWrite image) }
    ensures set { (image : List ℕ) → IsSettled (D.disk disk.old) image → OnOk result (IsGateSet gate image (D.disk disk.new)) }
    ensures length { Lengthens 0 (D.disk disk.old) (D.disk disk.new) }
    ensures syncs { SyncsAtMost 1 (D.disk disk.old) (D.disk disk.new) }
    ensures works { Works (D.disk disk.old) (D.disk disk.new) result }
{
    write(disk, 4096, &[gate])?;
    disk.sync()
}

/// Writes the pages of a batch home, a page at a time.
pub(crate) fn put_home<D: Disk, B: ChangedPages>(disk: &mut D, batch: &B) -> Result<(), Failed>
    requires within { (i : ℕ) → Has (B.pages batch.now) i → IsWithin (4096 * i + 4096) (D.disk disk.old) }
    ensures moments { (place : ℕ) (goal : ℕ → List ℕ) (image : List ℕ) → IsSettled (D.disk disk.old) image → IsSettling place (B.pages batch.now) goal image
        → Leaves (D.disk disk.old) (D.disk disk.new) (IsSettling place (B.pages batch.now) goal) }
    ensures home { (place : ℕ) (goal : ℕ → List ℕ) (image : List ℕ) → IsSettled (D.disk disk.old) image → IsSettling place (B.pages batch.now) goal image
        → OnOk result (AtHome (D.disk disk.new) place (B.pages batch.now) goal) }
    ensures length { Lengthens 0 (D.disk disk.old) (D.disk disk.new) }
    ensures syncs { SyncsAtMost 1 (D.disk disk.old) (D.disk disk.new) }
    ensures works { Works (D.disk disk.old) (D.disk disk.new) result }
{
    let numbers = batch.numbers();
    for i in 0..numbers.len() {
        write(disk, 4096 * numbers[i] as u64, &batch.image(i))?;
    }
    disk.sync()
}
