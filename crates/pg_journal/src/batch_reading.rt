//! A batch that a crash has left, as it is read.

ghost use Rattle.std.specs.Prelude.{◌≡◌, ◌≤◌, ◌<◌, ◌+◌, ◌*◌, ◌/◌, ◌^◌, ℕ, List, Option, Some, Ok, Err, IfOk, IfSome, OnOk, length, take, drop};
ghost use Rattle.std.specs.Option.{option_map};
ghost use Rattle.ct_site.specs.Disks.{IsSame, Works};
ghost use Rattle.pg_journal.specs.Pages.{AreBetween, page, put_on};
ghost use Rattle.pg_journal.specs.Recovered.{batch_page, batch_count, gate, number_pages, filling};
ghost use Rattle.pg_journal.specs.Looking.{ArePagesOr, IsBatchOr, IsOpenedOr, AreZeros, IsSized, Loads};
ghost use Rattle.ct_site.specs.Lengths.{IsWithin};

use crate::batches::PageBatch;
use crate::changed_pages::root_image;
use crate::faults::LoadFault;
use crate::reading::{homes_of_root, read, read_number};
use ct_site::{Disk, Failed};
use std::alloc::Global;

/// The pages of a batch, if their numbers may be those of one.
fn read_pages<D: Disk>(
    alloc: Global,
    disk: &mut D,
    place: u32,
    count: u32,
) -> Result<Option<PageBatch>, LoadFault>
    requires within { IsWithin (4096 * (place + number_pages count + count)) (D.disk disk.old) }
    ensures is { (image : List ℕ) → (D.disk disk.old).image ≡ Some image → place ≡ batch_page image → count ≡ batch_count image
        → IfOk result (λ found. ArePagesOr (option_map (λ b. b.pages) found) image) }
    ensures same { IsSame (D.disk disk.old) (D.disk disk.new) }
    ensures loads { Loads (D.disk disk.old) (D.disk disk.new) result }
    ensures store { result ≡ Err LoadFault.NotAStore → ⊥ }
{
    let at = 4096 * place as u64;
    let first = place as u64 + (count as u64 + 1023) / 1024;
    let Ok(mut batch) = PageBatch::new(alloc, count) else {
        return Err(LoadFault::Memory);
    };
    let mut low = 2;
    for i in 0..count {
        let Ok(number) = read_number(disk, at + 4 * i as u64) else {
            return Err(LoadFault::Disk);
        };
        if number < low {
            return Ok(None);
        }
        if number >= place {
            return Ok(None);
        }
        let Ok(bytes) = read::<D, 4096>(disk, 4096 * (first + i as u64)) else {
            return Err(LoadFault::Disk);
        };
        batch.put(number, &bytes);
        low = number + 1;
    }
    Ok(Some(batch))
}

/// Reads as many bytes as `into` has, and tells whether all are 0.
fn read_zeros<D: Disk>(disk: &mut D, at: u64, into: &mut [u8]) -> Result<bool, Failed>
    requires within { IsWithin (at + length into.old) (D.disk disk.old) }
    requires few { length into.old ≤ 4096 }
    ensures is { (image : List ℕ) → (D.disk disk.old).image ≡ Some image
        → IfOk result (λ found. AreZeros found (length into.old) (take (length into.old) (drop at image))) }
    ensures same { IsSame (D.disk disk.old) (D.disk disk.new) }
    ensures works { Works (D.disk disk.old) (D.disk disk.new) result }
{
    disk.read(at, into)?;
    let zeros = [0; 4096];
    Ok(into[..] == zeros[..into.len()])
}

/// Whether zeros stand where they fill the numbers of a batch to whole pages.
fn is_filled<D: Disk>(disk: &mut D, place: u32, count: u32) -> Result<bool, Failed>
    requires within { IsWithin (4096 * (place + number_pages count)) (D.disk disk.old) }
    ensures is { (image : List ℕ) → (D.disk disk.old).image ≡ Some image
        → IfOk result (λ found. AreZeros found (filling count) (take (filling count) (drop (4096 * place + 4 * count) image))) }
    ensures same { IsSame (D.disk disk.old) (D.disk disk.new) }
    ensures works { Works (D.disk disk.old) (D.disk disk.new) result }
{
    let numbers = 4 * count as u64;
    let filling = (4096 * ((count as u64 + 1023) / 1024) - numbers) as usize;
    let mut bytes = [0; 4096];
    read_zeros(disk, 4096 * place as u64 + numbers, &mut bytes[..filling])
}

/// The batch of this place and size, if one may stand there.
fn read_batch<D: Disk>(
    alloc: Global,
    disk: &mut D,
    size: u64,
    place: u32,
    count: u32,
) -> Result<Option<PageBatch>, LoadFault>
    requires sized { IsSized size (D.disk disk.old) }
    ensures is { (image : List ℕ) → (D.disk disk.old).image ≡ Some image → gate image ≡ 1 → place ≡ batch_page image → count ≡ batch_count image
        → IfOk result (λ found. IsBatchOr (option_map (λ b. b.pages) found) image) }
    ensures same { IsSame (D.disk disk.old) (D.disk disk.new) }
    ensures loads { Loads (D.disk disk.old) (D.disk disk.new) result }
    ensures store { result ≡ Err LoadFault.NotAStore → ⊥ }
{
    if count == 0 {
        return Ok(None);
    }
    let end = place as u64 + (count as u64 + 1023) / 1024 + count as u64;
    if 4096 * end > size {
        return Ok(None);
    }
    let Ok(filled) = is_filled(disk, place, count) else {
        return Err(LoadFault::Disk);
    };
    if !filled {
        return Ok(None);
    }
    read_pages(alloc, disk, place, count)
}

/// The root with these pages of a batch.
fn root_with<D: Disk>(disk: &mut D, batch: &PageBatch) -> Result<[u8; 4096], Failed>
    requires within { IsWithin 12288 (D.disk disk.old) }
    ensures is { (image : List ℕ) (end : ℕ) → (D.disk disk.old).image ≡ Some image → AreBetween 2 end batch.now.pages
        → IfOk result (λ root. root ≡ put_on batch.now.pages (page image) 2) }
    ensures same { IsSame (D.disk disk.old) (D.disk disk.new) }
    ensures works { Works (D.disk disk.old) (D.disk disk.new) result }
{
    match root_image(batch) {
        Some(root) => Ok(root),
        None => read::<D, 4096>(disk, 8192),
    }
}

/// The batch, and how many homes there are with it; None where there is no root, or one of more homes than lie before the batch.
fn batch_with_homes<D: Disk>(
    disk: &mut D,
    place: u32,
    batch: PageBatch,
) -> Result<Option<(PageBatch, u32)>, Failed>
    requires within { IsWithin 12288 (D.disk disk.old) }
    ensures is { (image : List ℕ) → (D.disk disk.old).image ≡ Some image → IsBatchOr (Some batch.pages) image → place ≡ batch_page image
        → IfOk result (λ found. IsOpenedOr (option_map (λ f. (f.0.pages, f.1)) found) image) }
    ensures bounds { IfOk result (λ found. IfSome found (λ f. (3 ≤ f.1) × (f.1 ≤ 2 ^ 31))) }
    ensures same { IsSame (D.disk disk.old) (D.disk disk.new) }
    ensures works { Works (D.disk disk.old) (D.disk disk.new) result }
{
    let root = root_with(disk, &batch)?;
    let Some(homes) = homes_of_root(&root) else {
        return Ok(None);
    };
    if homes > place {
        return Ok(None);
    }
    Ok(Some((batch, homes)))
}

/// The batch of a store whose gate is open, and how many homes there are with it.
pub(crate) fn look_open<D: Disk>(
    alloc: Global,
    disk: &mut D,
    size: u64,
) -> Result<Option<(PageBatch, u32)>, LoadFault>
    requires sized { IsSized size (D.disk disk.old) }
    requires long { 12288 ≤ size }
    ensures is { (image : List ℕ) → (D.disk disk.old).image ≡ Some image → gate image ≡ 1
        → IfOk result (λ found. IsOpenedOr (option_map (λ f. (f.0.pages, f.1)) found) image) }
    ensures bounds { IfOk result (λ found. IfSome found (λ f. (3 ≤ f.1) × (f.1 ≤ 2 ^ 31))) }
    ensures same { IsSame (D.disk disk.old) (D.disk disk.new) }
    ensures loads { Loads (D.disk disk.old) (D.disk disk.new) result }
    ensures store { result ≡ Err LoadFault.NotAStore → ⊥ }
{
    let Ok(place) = read_number(disk, 4104) else {
        return Err(LoadFault::Disk);
    };
    let Ok(count) = read_number(disk, 4108) else {
        return Err(LoadFault::Disk);
    };
    let Some(batch) = read_batch(alloc, disk, size, place, count)? else {
        return Ok(None);
    };
    match batch_with_homes(disk, place, batch) {
        Ok(found) => Ok(found),
        Err(Failed) => Err(LoadFault::Disk),
    }
}
