//! The pages of a store that is opened, whose entries are to stand.

ghost use Rattle.std.specs.Prelude.{◌≡◌, ◌*◌, ◌+◌, ℕ, List, Some, Err, IfOk, IfSome, length, map};
ghost use Rattle.std.specs.Option.{option_map};
ghost use Rattle.ct_site.specs.Disks.{IsSame};
ghost use Rattle.ct_site.specs.Lengths.{IsWithin};
ghost use Rattle.pg_map.specs.ChainReading.{taken_times};
ghost use Rattle.pg_map.specs.Kinds.{Each, StringItem, strings_of};
ghost use Rattle.pg_directory.specs.Trees.{StorePage, kind_of, IsPage};
ghost use Rattle.pg_directory.specs.Fetching.{ReadsDisk};
ghost use Rattle.pg_directory.specs.FirstPass.{far_of, far_values, AreItems};
ghost use Rattle.pg_directory.specs.Noting.{note_of};
ghost use Rattle.pg_directory.specs.Opening.{AreOpenOr, StandsOr};

use crate::far_values::{are_all_taken, take_values};
use crate::noting::PageNote;
use crate::passing::{FarValue, FirstPass, first_pass};
use ct_base::Memory;
use ct_keep::KeepFault;
use ct_site::Disk;
use std::alloc::Global;

/// Whether values stand over different long pages, which are all there are, where none was taken.
fn all_stand(notes: &[PageNote], taken: &mut [bool], far: &[FarValue]) -> bool
    requires { length taken.old ≡ length notes.now }
    ensures { (pages : List StorePage) (items : List StringItem) → Each IsPage pages → notes.now ≡ map note_of pages → map far_of far.now ≡ far_values items → AreItems (strings_of (map kind_of pages)) items
        → ((i : ℕ) → taken_times taken.old i ≡ 0) → StandsOr result (map kind_of pages) }
{
    if !take_values(notes, taken, far) {
        return false;
    }
    are_all_taken(notes, taken)
}

/// Whether the entries of pages stand, each long page in one of them. It takes a byte a page.
fn do_stand(alloc: Global, pass: &FirstPass) -> Result<bool, Memory>
    ensures { IfOk result (λ is. (pages : List StorePage) (items : List StringItem) → Each IsPage pages → pass.now.notes.items ≡ map note_of pages → map far_of pass.now.far.items ≡ far_values items
        → AreItems (strings_of (map kind_of pages)) items → StandsOr is (map kind_of pages)) }
{
    let mut taken = Vec::from_elem(alloc, false, pass.notes.len())?;
    Ok(all_stand(&pass.notes, &mut taken, &pass.far))
}

/// What is kept of the pages of a store whose entries stand: what each is, and where there may be room.
#[derive(Debug, Drop)]
pub struct OpenPages {
    pub notes: Vec<PageNote>,
    pub roomy: Vec<usize>,
}

/// So many pages from page 3 on, whose entries stand. It reads each page once, in order. None exactly where there are no such
/// pages, or no map is laid out on them.
pub fn open_pages<D: Disk>(
    alloc: Global,
    disk: &mut D,
    count: u32,
) -> Result<Option<OpenPages>, KeepFault>
    requires { IsWithin (4096 * (3 + count)) (D.disk disk.old) }
    ensures count { IfOk result (λ found. IfSome found (λ pages. length pages.notes.items ≡ count)) }
    ensures opened { (image : List ℕ) → (D.disk disk.old).image ≡ Some image → IfOk result (λ found. AreOpenOr (option_map (λ pages. pages.notes) found) image count) }
    ensures same { IsSame (D.disk disk.old) (D.disk disk.new) }
    ensures full { result ≡ Err KeepFault.Full → ⊥ }
    ensures reads { ReadsDisk (D.disk disk.old) (D.disk disk.new) result }
{
    let found = match first_pass(alloc, disk, count) {
        Ok(found) => found,
        Err(fault) => return Err(fault),
    };
    let Some(pass) = found else {
        return Ok(None);
    };
    let Ok(is_standing) = do_stand(alloc, &pass) else {
        return Err(KeepFault::Memory);
    };
    if !is_standing {
        return Ok(None);
    }
    Ok(Some(OpenPages {
        notes: pass.notes,
        roomy: pass.roomy,
    }))
}
