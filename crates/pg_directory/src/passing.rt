//! The first pass over the pages of a store that is opened: what each page is, and which values stand on long pages.

ghost use Rattle.std.specs.Prelude.{◌∷◌, [], ◌≡◌, ◌<◌, ◌+◌, ◌*◌, ◌^◌, ℕ, List, Some, Err, IfOk, IfSome, length, map};
ghost use Rattle.ct_site.specs.Disks.{IsSame};
ghost use Rattle.ct_site.specs.Lengths.{IsWithin};
ghost use Rattle.pg_map.specs.Kinds.{strings_of};
ghost use Rattle.pg_map.specs.Sheets.{sheet_kind};
ghost use Rattle.pg_journal.specs.Pages.{page};
ghost use Rattle.pg_directory.specs.Fetching.{ReadsDisk};
ghost use Rattle.pg_directory.specs.FirstPass.{far_of, IsFirstPassOr, ReadsFirst, TakesString, TakesStrings};

use crate::noting::{PageNote, directory_note, note_of_sheet};
use crate::reading::short_number;
use ct_base::Memory;
use ct_keep::KeepFault;
use ct_site::Disk;
use pg_map::{Form, Sheet, item_of, sheet_of};
use pg_page::{Page, Slot};
use std::alloc::Global;

/// A value that stands on long pages: the first of them, and how many bytes it has.
#[derive(Clone, Copy, Debug, PartialEq, Eq)]
pub struct FarValue {
    pub first: u32,
    pub count: u32,
}

/// What the pages of a store are, and the values on long pages.
#[derive(Debug, Drop)]
pub struct FirstPass {
    pub notes: Vec<PageNote>,
    pub far: Vec<FarValue>,
    /// Where there may be room for a string: the places of pages, from the first one behind the root.
    pub roomy: Vec<usize>,
}

/// How many free bytes a page has at least that is noted as one with room.
const NOTED_ROOM: usize = 512;

/// How many bytes of a page are free, if it has strings.
fn room_in(page: &[u8; 4096]) -> usize {
    if page[0] != 1 {
        return 0;
    }
    let lowest = short_number(page, 4) as usize;
    lowest.saturating_sub(8 + 4 * short_number(page, 2) as usize)
}

/// Notes a page that may have room for a string. Where memory is wanting it isn't noted.
fn note_room(page: &[u8; 4096], at: usize, roomy: &mut Vec<usize>) {
    if room_in(page) >= NOTED_ROOM {
        let _ = roomy.push(at);
    }
}

/// Notes the value of an entry, if it stands on long pages. False exactly where the string is that of no entry.
fn take_string(alloc: Global, string: &[u8], far: &mut Vec<FarValue>) -> Result<bool, Memory>
    ensures { IfOk result (λ is. TakesString is string.now (map far_of far.old.items) (map far_of far.new.items)) }
{
    let Some(form) = item_of(alloc, string)? else {
        return Ok(false);
    };
    match form {
        Form::Short { key: _, value: _ } => Ok(true),
        Form::Far {
            key: _,
            count,
            first,
        } => {
            far.push(FarValue { first, count })?;
            Ok(true)
        }
    }
}

/// Notes the values of the entries of a page that stand on long pages. False exactly where a string is that of no entry.
fn take_strings(alloc: Global, page: &Page, far: &mut Vec<FarValue>) -> Result<bool, Memory>
    ensures { IfOk result (λ is. TakesStrings is page.now (map far_of far.old.items) (map far_of far.new.items)) }
{
    for i in 0..page.count() {
        let Some(string) = page.get(Slot(i as u16)) else {
            unreachable!()
        };
        if !take_string(alloc, string, far)? {
            return Ok(false);
        }
    }
    Ok(true)
}

/// The same of a page that has strings or hasn't.
fn take_sheet(alloc: Global, sheet: &Sheet, far: &mut Vec<FarValue>) -> Result<bool, Memory>
    ensures { IfOk result (λ is. TakesStrings is (strings_of (sheet_kind sheet.now ∷ [])) (map far_of far.old.items) (map far_of far.new.items)) }
{
    match sheet {
        Sheet::Slotted(page) => take_strings(alloc, page, far),
        _ => Ok(true),
    }
}

/// What the page of these bytes is. None exactly where they are those of no page, or a string on it is that of no entry.
fn read_first(
    alloc: Global,
    bytes: &[u8; 4096],
    far: &mut Vec<FarValue>,
) -> Result<Option<PageNote>, Memory>
    ensures { IfOk result (λ found. ReadsFirst found bytes.now (map far_of far.old.items) (map far_of far.new.items)) }
{
    if bytes[0] == 3 {
        return Ok(directory_note(bytes));
    }
    let Some(sheet) = sheet_of(alloc, bytes)? else {
        return Ok(None);
    };
    if !take_sheet(alloc, &sheet, far)? {
        return Ok(None);
    }
    Ok(Some(note_of_sheet(&sheet)))
}

/// The page of a number, read from the disk.
pub(crate) fn read_page<D: Disk>(disk: &mut D, number: u64) -> Result<[u8; 4096], KeepFault>
    requires within { IsWithin (4096 * number + 4096) (D.disk disk.old) }
    requires small { number < 2 ^ 33 }
    ensures bytes { (image : List ℕ) → (D.disk disk.old).image ≡ Some image → IfOk result (λ bytes. bytes ≡ page image number) }
    ensures same { IsSame (D.disk disk.old) (D.disk disk.new) }
    ensures full { result ≡ Err KeepFault.Full → ⊥ }
    ensures reads { ReadsDisk (D.disk disk.old) (D.disk disk.new) result }
{
    let mut bytes = [0; 4096];
    let Ok(()) = disk.read(4096 * number, &mut bytes) else {
        return Err(KeepFault::Disk);
    };
    Ok(bytes)
}

/// The first pass over so many pages from page 3 on. Each is read once, in order, and eight bytes are kept of it. None exactly where the bytes
/// of one are those of no page, or a string is that of no entry.
pub fn first_pass<D: Disk>(
    alloc: Global,
    disk: &mut D,
    count: u32,
) -> Result<Option<FirstPass>, KeepFault>
    requires { IsWithin (4096 * (3 + count)) (D.disk disk.old) }
    ensures count { IfOk result (λ found. IfSome found (λ pass. length pass.notes.items ≡ count)) }
    ensures pass { (image : List ℕ) → (D.disk disk.old).image ≡ Some image → IfOk result (λ found. IsFirstPassOr found image count) }
    ensures same { IsSame (D.disk disk.old) (D.disk disk.new) }
    ensures full { result ≡ Err KeepFault.Full → ⊥ }
    ensures reads { ReadsDisk (D.disk disk.old) (D.disk disk.new) result }
{
    let mut notes = Vec::new(alloc);
    let mut far = Vec::new(alloc);
    let mut roomy = Vec::new(alloc);
    for i in 0..count {
        let bytes = match read_page(disk, 3 + i as u64) {
            Ok(bytes) => bytes,
            Err(fault) => return Err(fault),
        };
        let Ok(found) = read_first(alloc, &bytes, &mut far) else {
            return Err(KeepFault::Memory);
        };
        let Some(note) = found else {
            return Ok(None);
        };
        note_room(&bytes, i as usize, &mut roomy);
        let Ok(()) = notes.push(note) else {
            return Err(KeepFault::Memory);
        };
    }
    Ok(Some(FirstPass { notes, far, roomy }))
}
