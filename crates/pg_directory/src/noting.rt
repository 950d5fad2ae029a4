//! What is kept of each page while a store is opened.

ghost use Rattle.std.specs.Prelude.{◌≡◌, List, get_or, length, map};
ghost use Rattle.pg_map.specs.Kinds.{Each, IsKind};
ghost use Rattle.pg_map.specs.Sheets.{sheet_kind};
ghost use Rattle.pg_directory.specs.Trees.{StorePage, Plain, kind_of, IsPage};
ghost use Rattle.pg_directory.specs.Noting.{long_in, note_of, IsChainOr, IsNotedOr, IsNoteOr};

use crate::telling::is_directory;
use pg_map::Sheet;

/// What a page behind the root is.
#[derive(Clone, Copy, Debug, PartialEq, Eq)]
pub enum PageNote {
    Free,
    /// It has so many strings.
    Slotted { strings: u16 },
    /// The number of the next page of a long value, or 0, and how many bytes of it this page has.
    Long { next: u32, used: u16 },
    Directory,
}

/// The note of a page that is none of a directory.
pub(crate) fn note_of_sheet(sheet: &Sheet) -> PageNote
    requires { IsKind (sheet_kind sheet.now) }
    ensures { result ≡ note_of (Plain (sheet_kind sheet.now)) }
{
    match sheet {
        Sheet::Free => PageNote::Free,
        Sheet::Slotted(page) => PageNote::Slotted {
            strings: page.count() as u16,
        },
        Sheet::Long { next, bytes } => PageNote::Long {
            next: *next,
            used: bytes.len() as u16,
        },
    }
}

/// The note of a page of the directory, if the bytes are those of one.
pub(crate) fn directory_note(bytes: &[u8; 4096]) -> Option<PageNote>
    requires { get_or bytes.now 0 0 ≡ 3 }
    ensures { IsNoteOr result bytes.now }
{
    if is_directory(bytes) {
        Some(PageNote::Directory)
    } else {
        None
    }
}

/// The next page of a long page, and how many bytes it has, by its note.
pub(crate) fn long_note(note: PageNote) -> Option<(u32, u16)>
    ensures { result ≡ long_in note }
{
    match note {
        PageNote::Long { next, used } => Some((next, used)),
        _ => None,
    }
}

/// Takes a long page that was not taken: gives the number of the next one, and how many bytes it has. None exactly where it is no long page,
/// or was taken.
fn take_noted(notes: &[PageNote], taken: &mut [bool], page: u32) -> Option<(u32, u16)>
    requires { length taken.old ≡ length notes.now }
    ensures { (pages : List StorePage) → notes.now ≡ map note_of pages → IsNotedOr result (map kind_of pages) page taken.old taken.new }
{
    if page < 3 {
        return None;
    }
    let at = page as usize - 3;
    if at >= notes.len() {
        return None;
    }
    if taken[at] {
        return None;
    }
    let Some((next, used)) = long_note(notes[at]) else {
        return None;
    };
    taken[at] = true;
    Some((next, used))
}

/// Takes the long pages of a value of so many bytes, from this one on. False exactly where no such pages are there that were not taken.
pub fn take_chain(notes: &[PageNote], taken: &mut [bool], first: u32, count: u32) -> bool
    requires { length taken.old ≡ length notes.now }
    ensures long { length taken.new ≡ length taken.old }
    ensures taken { (pages : List StorePage) → Each IsPage pages → notes.now ≡ map note_of pages → IsChainOr result (map kind_of pages) taken.old taken.new first count }
{
    let mut done = 0;
    let mut page = first;
    while done < count as u64 {
        let Some((next, used)) = take_noted(notes, taken, page) else {
            return false;
        };
        if used == 0 {
            return false;
        }
        done += used as u64;
        page = next;
    }
    if done > count as u64 {
        return false;
    }
    page == 0
}
