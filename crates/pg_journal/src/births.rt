//! Birth: the three steps by which a file becomes a store, each with one write and one sync.

ghost use Rattle.std.specs.Prelude.{◌≡◌, ◌≤◌, ◌+◌, ◌∷◌, false, ℕ, List, Option, Some, Ok, OnOk, length};
ghost use Rattle.ct_site.specs.Images.{written};
ghost use Rattle.ct_site.specs.Disks.{IsSettled, Leaves, Works};
ghost use Rattle.pg_journal.specs.Recovered.{IsUnborn, IsRecovered, first_pages};
ghost use Rattle.pg_journal.specs.Births.{born, Cleared, IsCleared, IsUnbornAs};
ghost use Rattle.pg_journal.specs.Standing.{DiskStands};
ghost use Rattle.pg_journal.specs.Syncs.{SyncsAtMost};
ghost use Rattle.ct_site.specs.Lengths.{Lengthens, IsWithin};

use crate::writing::write;
use ct_site::{Disk, Failed};

/// Puts bytes at a place.
pub(crate) fn put_at(into: &mut [u8], at: usize, bytes: &[u8])
    requires { at + length bytes.now ≤ length into.old }
    ensures { into.new ≡ written at bytes.now into.old }
{
    into[at..at + bytes.len()].copy_from_slice(bytes);
}

/// The three pages of a new store but the first byte.
pub(crate) fn born_bytes() -> [u8; 12287]
    ensures { result ≡ born }
{
    let mut bytes = [0; 12287];
    put_at(&mut bytes, 0, b"CTXSTORE");
    put_at(&mut bytes, 8191, &[4, 0, 0, 0, 0, 0, 0, 3]);
    bytes
}

/// Writes the first byte as 0.
pub(crate) fn clear<D: Disk>(disk: &mut D) -> Result<(), Failed>
    ensures moments { (image : List ℕ) → IsSettled (D.disk disk.old) image → length image ≤ 1 → Leaves (D.disk disk.old) (D.disk disk.new) IsUnborn }
    ensures cleared { (image : List ℕ) → IsSettled (D.disk disk.old) image → length image ≤ 1 → OnOk result (Cleared (D.disk disk.new)) }
    ensures within { OnOk result (IsWithin 1 (D.disk disk.new)) }
    ensures length { Lengthens 12288 (D.disk disk.old) (D.disk disk.new) }
    ensures syncs { SyncsAtMost 1 (D.disk disk.old) (D.disk disk.new) }
    ensures works { Works (D.disk disk.old) (D.disk disk.new) result }
{
    write(disk, 0, &[0])?;
    disk.sync()
}

/// Writes all but the first byte.
pub(crate) fn write_pages<D: Disk>(disk: &mut D) -> Result<(), Failed>
    requires within { IsWithin 1 (D.disk disk.old) }
    ensures moments { (image : List ℕ) → IsSettled (D.disk disk.old) image → IsCleared image → Leaves (D.disk disk.old) (D.disk disk.new) IsUnborn }
    ensures bytes { (image : List ℕ) → IsSettled (D.disk disk.old) image → IsCleared image → OnOk result (IsSettled (D.disk disk.new) (0 ∷ born)) }
    ensures length { Lengthens 12288 (D.disk disk.old) (D.disk disk.new) }
    ensures syncs { SyncsAtMost 1 (D.disk disk.old) (D.disk disk.new) }
    ensures works { Works (D.disk disk.old) (D.disk disk.new) result }
{
    write(disk, 1, &born_bytes())?;
    disk.sync()
}

/// Writes the first byte as 1.
pub(crate) fn set_birth<D: Disk>(disk: &mut D) -> Result<(), Failed>
    ensures moments { IsSettled (D.disk disk.old) (0 ∷ born) → Leaves (D.disk disk.old) (D.disk disk.new) (λ x. IsRecovered x first_pages) }
    ensures stands { IsSettled (D.disk disk.old) (0 ∷ born) → OnOk result (DiskStands (D.disk disk.new) 3 first_pages) }
    ensures length { Lengthens 12288 (D.disk disk.old) (D.disk disk.new) }
    ensures syncs { SyncsAtMost 1 (D.disk disk.old) (D.disk disk.new) }
    ensures works { Works (D.disk disk.old) (D.disk disk.new) result }
{
    write(disk, 0, &[1])?;
    disk.sync()
}

/// Sees to it that the first byte is 0.
fn clear_where<D: Disk>(disk: &mut D, empty: bool) -> Result<(), Failed>
    requires within { empty ≡ false → IsWithin 1 (D.disk disk.old) }
    ensures moments { (image : List ℕ) → IsSettled (D.disk disk.old) image → IsUnbornAs empty image → Leaves (D.disk disk.old) (D.disk disk.new) IsUnborn }
    ensures cleared { (image : List ℕ) → IsSettled (D.disk disk.old) image → IsUnbornAs empty image → OnOk result (Cleared (D.disk disk.new)) }
    ensures within { OnOk result (IsWithin 1 (D.disk disk.new)) }
    ensures length { Lengthens 12288 (D.disk disk.old) (D.disk disk.new) }
    ensures syncs { SyncsAtMost 1 (D.disk disk.old) (D.disk disk.new) }
    ensures works { Works (D.disk disk.old) (D.disk disk.new) result }
{
    if empty { clear(disk) } else { Ok(()) }
}

/// Makes an unborn file a store; `empty` says that it has at most one byte.
pub(crate) fn make_store<D: Disk>(disk: &mut D, empty: bool) -> Result<(), Failed>
    requires within { empty ≡ false → IsWithin 1 (D.disk disk.old) }
    ensures moments { (image : List ℕ) → IsSettled (D.disk disk.old) image → IsUnbornAs empty image
        → Leaves (D.disk disk.old) (D.disk disk.new) (λ x. IsRecovered x first_pages) }
    ensures stands { (image : List ℕ) → IsSettled (D.disk disk.old) image → IsUnbornAs empty image → OnOk result (DiskStands (D.disk disk.new) 3 first_pages) }
    ensures length { Lengthens 12288 (D.disk disk.old) (D.disk disk.new) }
    ensures syncs { SyncsAtMost 3 (D.disk disk.old) (D.disk disk.new) }
    ensures works { Works (D.disk disk.old) (D.disk disk.new) result }
{
    clear_where(disk, empty)?;
    write_pages(disk)?;
    set_birth(disk)
}
