//! Writes of several pieces that count as one.

ghost use Rattle.std.specs.Prelude.{◌≡◌, ◌≤◌, ◌+◌, ◌-◌, ◌*◌, ◌<◌, ◌^◌, ◌++◌, ℕ, List, Option, Some, Ok, OnOk, length};
ghost use Rattle.ct_base.specs.Zeros.{zeros};
ghost use Rattle.ct_site.specs.Disks.{Works};
ghost use Rattle.ct_site.specs.Lengths.{IsWithin};
ghost use Rattle.ct_site.specs.Writing.{Writes};
ghost use Rattle.pg_journal.specs.BatchStates.{spelled};
ghost use Rattle.pg_journal.specs.Recovered.{filling, images_bytes};

use crate::births::put_at;
use crate::changed_pages::ChangedPages;
use ct_site::{Disk, Failed};

/// Writes bytes.
pub(crate) fn write<D: Disk>(disk: &mut D, at: u64, bytes: &[u8]) -> Result<(), Failed>
    requires within { IsWithin at (D.disk disk.old) }
    requires some { 0 < length bytes.now }
    ensures writes { Writes at bytes.now (D.disk disk.old) (D.disk disk.new) result }
    ensures syncs { (D.disk disk.new).syncs ≡ (D.disk disk.old).syncs }
    ensures works { Works (D.disk disk.old) (D.disk disk.new) result }
{
    disk.write_at(at, bytes)
}

/// How many zeros are written at a time.
const PIECE: u64 = 65536;

/// Writes so many zeros.
pub(crate) fn write_zeros<D: Disk>(disk: &mut D, at: u64, count: u64) -> Result<(), Failed>
    requires within { IsWithin at (D.disk disk.old) }
    requires fits { at + count < 2 ^ 45 }
    ensures writes { Writes at (zeros count) (D.disk disk.old) (D.disk disk.new) result }
    ensures syncs { (D.disk disk.new).syncs ≡ (D.disk disk.old).syncs }
    ensures works { Works (D.disk disk.old) (D.disk disk.new) result }
{
    let piece = [0; PIECE as usize];
    let mut done = 0;
    while done < count {
        let more = (count - done).min(PIECE);
        write(disk, at + done, &piece[..more as usize])?;
        done += more;
    }
    Ok(())
}

/// The page of so many numbers, four bytes each, and then zeros.
fn number_page(numbers: &[u32]) -> [u8; 4096]
    requires few { length numbers.now ≤ 1024 }
    ensures { result ≡ spelled numbers.now ++ zeros (4096 - 4 * length numbers.now) }
{
    let mut bytes = [0; 4096];
    let mut at = 0;
    for number in numbers {
        put_at(&mut bytes, at, &number.to_be_bytes());
        at += 4;
    }
    bytes
}

/// Writes numbers, four bytes each, and zeros that fill the last page; a page at a time.
pub(crate) fn write_numbers<D: Disk>(disk: &mut D, at: u64, numbers: &[u32]) -> Result<(), Failed>
    requires within { IsWithin at (D.disk disk.old) }
    requires fits { at + 4 * length numbers.now < 2 ^ 45 }
    ensures writes { Writes at (spelled numbers.now ++ zeros (filling (length numbers.now))) (D.disk disk.old) (D.disk disk.new) result }
    ensures syncs { (D.disk disk.new).syncs ≡ (D.disk disk.old).syncs }
    ensures works { Works (D.disk disk.old) (D.disk disk.new) result }
{
    let mut next = at;
    let mut done = 0;
    while done < numbers.len() {
        let end = numbers.len().min(done + 1024);
        write(disk, next, &number_page(&numbers[done..end]))?;
        next += 4096;
        done = end;
    }
    Ok(())
}

/// Writes the images of pages, one behind the other; a page at a time.
pub(crate) fn write_images<D: Disk, B: ChangedPages>(
    disk: &mut D,
    at: u64,
    batch: &B,
) -> Result<(), Failed>
    requires within { IsWithin at (D.disk disk.old) }
    requires fits { at + 4096 * length (B.pages batch.now) < 2 ^ 45 }
    ensures writes { Writes at (images_bytes (B.pages batch.now)) (D.disk disk.old) (D.disk disk.new) result }
    ensures syncs { (D.disk disk.new).syncs ≡ (D.disk disk.old).syncs }
    ensures works { Works (D.disk disk.old) (D.disk disk.new) result }
{
    for i in 0..batch.numbers().len() {
        write(disk, at + 4096 * i as u64, &batch.image(i))?;
    }
    Ok(())
}
