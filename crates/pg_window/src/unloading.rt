//! Pages that go from memory again.

ghost use Rattle.std.specs.Prelude.{◌≡◌, ◌≤◌, [], length, map, take, drop, set, get_or, true, false};
ghost use Rattle.pg_window.specs.Loading.{unloaded, page_place, rested, rested_sheet, ListsLoaded};
ghost use Rattle.pg_window.specs.declared.sheets.Sheet.TheVariants.{Free as FreeSheet, Away as AwaySheet};

use crate::sheets::Sheet;

/// Puts a page in place of another one. A place behind the pages is none.
pub(crate) fn set_sheet(sheets: &mut Vec<Sheet>, at: usize, sheet: Sheet)
    ensures { sheets.new.items ≡ set sheets.old.items at sheet }
{
    if at < sheets.len() {
        sheets[at] = sheet;
    }
}

/// Each page at one of the places listed behind the first so many is away again, and these are listed no more.
pub(crate) fn unload_behind(sheets: &mut Vec<Sheet>, loaded: &mut Vec<usize>, count: usize)
    requires { count ≤ length loaded.old.items }
    ensures sheets { sheets.new.items ≡ unloaded (drop count loaded.old.items) sheets.old.items }
    ensures loaded { loaded.new.items ≡ take count loaded.old.items }
{
    while loaded.len() > count {
        if let Some(at) = loaded.pop() {
            set_sheet(sheets, at, Sheet::Away);
        }
    }
}

/// Each page at a place that is listed is away again, and none is listed then. Over a list that `load_page` made from pages all of which
/// were free or away the pages are then what they were. It takes no memory.
pub fn unload(sheets: &mut Vec<Sheet>, loaded: &mut Vec<usize>)
    ensures sheets { sheets.new.items ≡ unloaded loaded.old.items sheets.old.items }
    ensures loaded { loaded.new.items ≡ [] }
{
    unload_behind(sheets, loaded, 0);
}

/// Each page at one of these places is away, unless it is free. So after a commit all pages are at rest where the places are those of the
/// pages that were loaded and of those that were changed. It takes no memory.
pub fn rest(sheets: &mut Vec<Sheet>, places: &[usize])
    ensures sheets { sheets.new.items ≡ rested places.now sheets.old.items }
    ensures rests { ListsLoaded sheets.old.items places.now → sheets.new.items ≡ map rested_sheet sheets.old.items }
{
    let mut count = places.len();
    while count > 0 {
        count -= 1;
        rest_sheet(sheets, places[count]);
    }
}

/// The same of the pages of these numbers, which are their places and three.
pub fn rest_pages(sheets: &mut Vec<Sheet>, numbers: &[u32])
    ensures { sheets.new.items ≡ rested (map page_place numbers.now) sheets.old.items }
{
    for done in 0..numbers.len() {
        let number = numbers[numbers.len() - 1 - done] as usize;
        rest_sheet(sheets, number.saturating_sub(3));
    }
}

/// The page at a place is away, unless it is free.
fn rest_sheet(sheets: &mut Vec<Sheet>, at: usize)
    ensures { sheets.new.items ≡ set sheets.old.items at (rested_sheet (get_or sheets.old.items at FreeSheet)) }
{
    if !is_free_at(sheets, at) {
        set_sheet(sheets, at, Sheet::Away);
    }
}

/// Whether the page at a place is free. One that is behind the pages is.
fn is_free_at(sheets: &[Sheet], at: usize) -> bool
    ensures yes { result ≡ true → get_or sheets.now at FreeSheet ≡ FreeSheet }
    ensures no { result ≡ false → rested_sheet (get_or sheets.now at FreeSheet) ≡ AwaySheet }
{
    match sheets.get(at) {
        Some(Sheet::Free) => true,
        Some(_) => false,
        None => true,
    }
}
