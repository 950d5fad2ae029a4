//! A heap at rest: of its pages just the free ones are in memory.

ghost use Rattle.std.specs.Prelude.{◌≡◌, ◌+◌, ◌<◌, ◌++◌, IfOk, length, get_or, map, true};
ghost use Rattle.pg_window.specs.Loading.{page_place, rested};
ghost use Rattle.pg_change.specs.Resting.{IsResting};

use ct_base::Memory;
use pg_window::{Sheet, rest, rest_pages};
use std::alloc::Global;

/// Whether a place is the next one that is listed.
fn is_next(places: &[usize], next: usize, at: usize) -> bool
    ensures yes { result ≡ true → (next < length places.now) × (get_or places.now next 0 ≡ at) }
{
    next < places.len() && places[next] == at
}

/// The pages of a store of which nothing is in memory, so many: those at the places given are free, all others are away. The places have to
/// be in order, each once, and below the count: else it answers Memory. A page takes 32 bytes.
pub fn resting_sheets(alloc: Global, count: usize, free: &[usize]) -> Result<Vec<Sheet>, Memory>
    ensures { IfOk result (λ sheets. IsResting sheets.items (3 + count) free.now) }
{
    let mut sheets = Vec::new(alloc);
    let mut next = 0;
    while sheets.len() < count {
        if is_next(free, next, sheets.len()) {
            sheets.push(Sheet::Free)?;
            next += 1;
        } else {
            sheets.push(Sheet::Away)?;
        }
    }
    if next < free.len() {
        return Err(Memory);
    }
    Ok(sheets)
}

/// After a commit: each page at a place that is listed as loaded, or of one of the numbers of pages that were changed, is away, unless it is
/// free. It takes no memory.
pub fn rest_all(sheets: &mut Vec<Sheet>, loaded: &[usize], numbers: &[u32])
    ensures { sheets.new.items ≡ rested (map page_place numbers.now ++ loaded.now) sheets.old.items }
{
    rest(sheets, loaded);
    rest_pages(sheets, numbers);
}
