//! What a file is, as it is read before anything is written.

ghost use Rattle.std.specs.Prelude.{◌≡◌, ◌≤◌, ◌<◌, ◌+◌, ◌*◌, ◌^◌, ℕ, List, Option, Some, Ok, IfOk, IfSome, OnOk, IsTrue, length, take, drop};
ghost use Rattle.ct_site.specs.Disks.{IsSame, Works};
ghost use Rattle.pg_journal.specs.Pages.{page, number_in, byte, root_page};
ghost use Rattle.pg_journal.specs.Recovered.{gate, batch_page, batch_count, mark};
ghost use Rattle.pg_journal.specs.Looking.{IsSized, IsUnbornOr, HasMark, IsRootOr, IsClosedOr};
ghost use Rattle.ct_site.specs.Lengths.{IsWithin};

use crate::births::put_at;
use ct_site::{Disk, Failed};

/// The bytes at a place.
pub(crate) fn read<D: Disk, const N: usize>(disk: &mut D, at: u64) -> Result<[u8; N], Failed>
    requires within { IsWithin (at + N) (D.disk disk.old) }
    ensures bytes { (image : List ℕ) → (D.disk disk.old).image ≡ Some image → IfOk result (λ bytes. bytes ≡ take N (drop at image)) }
    ensures same { IsSame (D.disk disk.old) (D.disk disk.new) }
    ensures works { Works (D.disk disk.old) (D.disk disk.new) result }
{
    let mut bytes = [0; N];
    disk.read(at, &mut bytes)?;
    Ok(bytes)
}

/// The number of the four bytes at a place.
pub(crate) fn read_number<D: Disk>(disk: &mut D, at: u64) -> Result<u32, Failed>
    requires within { IsWithin (at + 4) (D.disk disk.old) }
    ensures is { (image : List ℕ) → (D.disk disk.old).image ≡ Some image → IfOk result (λ n. n ≡ number_in image at) }
    ensures same { IsSame (D.disk disk.old) (D.disk disk.new) }
    ensures works { Works (D.disk disk.old) (D.disk disk.new) result }
{
    let bytes = read::<D, 4>(disk, at)?;
    Ok(u32::from_be_bytes(bytes))
}

/// The byte at a place.
pub(crate) fn read_byte<D: Disk>(disk: &mut D, at: u64) -> Result<u8, Failed>
    requires within { IsWithin (at + 1) (D.disk disk.old) }
    ensures is { (image : List ℕ) → (D.disk disk.old).image ≡ Some image → IfOk result (λ n. n ≡ byte image at) }
    ensures same { IsSame (D.disk disk.old) (D.disk disk.new) }
    ensures works { Works (D.disk disk.old) (D.disk disk.new) result }
{
    let [byte] = read::<D, 1>(disk, at)?;
    Ok(byte)
}

/// Whether a file of so many bytes is unborn, and then whether it has at most one byte.
pub(crate) fn unborn<D: Disk>(disk: &mut D, size: u64) -> Result<Option<bool>, Failed>
    requires sized { IsSized size (D.disk disk.old) }
    ensures is { (image : List ℕ) → (D.disk disk.old).image ≡ Some image → IfOk result (λ found. IsUnbornOr found image) }
    ensures same { IsSame (D.disk disk.old) (D.disk disk.new) }
    ensures works { Works (D.disk disk.old) (D.disk disk.new) result }
{
    if size <= 1 {
        return Ok(Some(true));
    }
    if size > 12288 {
        return Ok(None);
    }
    let [first] = read::<D, 1>(disk, 0)?;
    if first == 0 {
        Ok(Some(false))
    } else {
        Ok(None)
    }
}

/// What stands behind the first byte of page 0.
fn mark_bytes() -> [u8; 4095]
    ensures { result ≡ mark }
{
    let mut bytes = [0; 4095];
    put_at(&mut bytes, 0, b"CTXSTORE");
    bytes
}

/// Whether page 0 has the mark.
pub(crate) fn has_mark<D: Disk>(disk: &mut D) -> Result<bool, Failed>
    requires within { IsWithin 4096 (D.disk disk.old) }
    ensures is { (image : List ℕ) → (D.disk disk.old).image ≡ Some image → IfOk result (λ found. HasMark found image) }
    ensures same { IsSame (D.disk disk.old) (D.disk disk.new) }
    ensures works { Works (D.disk disk.old) (D.disk disk.new) result }
{
    let bytes = read::<D, 4095>(disk, 1)?;
    Ok(bytes == mark_bytes())
}

/// The bytes of a root with so many homes, which names this page as the top of the directory, or 0 where there is none.
pub fn root_bytes(homes: u32, top: u32) -> [u8; 4096]
    ensures { result ≡ root_page homes top }
{
    let mut bytes = [0; 4096];
    put_at(&mut bytes, 0, &[4]);
    put_at(&mut bytes, 4, &homes.to_be_bytes());
    put_at(&mut bytes, 8, &top.to_be_bytes());
    bytes
}

/// How many homes a root tells of.
pub(crate) fn homes_of_root(page: &[u8; 4096]) -> Option<u32>
    ensures root { IsRootOr result page.now }
    ensures bounds { IfSome result (λ homes. (3 ≤ homes) × (homes ≤ 2 ^ 31)) }
{
    let [_, _, _, _, a, b, c, d, e, f, g, h, ..] = *page;
    let homes = u32::from_be_bytes([a, b, c, d]);
    let top = u32::from_be_bytes([e, f, g, h]);
    if homes < 3 {
        return None;
    }
    if homes > 1 << 31 {
        return None;
    }
    if *page == root_bytes(homes, top) {
        Some(homes)
    } else {
        None
    }
}

/// How many homes a store has whose gate is closed.
pub(crate) fn homes_of_closed<D: Disk>(disk: &mut D, size: u64) -> Result<Option<u32>, Failed>
    requires sized { IsSized size (D.disk disk.old) }
    requires long { 12288 ≤ size }
    ensures is { (image : List ℕ) → (D.disk disk.old).image ≡ Some image → IfOk result (λ found. IsClosedOr found image) }
    ensures bounds { IfOk result (λ found. IfSome found (λ homes. (3 ≤ homes) × (homes ≤ 2 ^ 31))) }
    ensures same { IsSame (D.disk disk.old) (D.disk disk.new) }
    ensures works { Works (D.disk disk.old) (D.disk disk.new) result }
{
    let root = read::<D, 4096>(disk, 8192)?;
    let Some(homes) = homes_of_root(&root) else {
        return Ok(None);
    };
    if 4096 * homes as u64 > size {
        return Ok(None);
    }
    Ok(Some(homes))
}
