//! All levels of a directory above its leaves.

ghost use Rattle.std.specs.Prelude.{◌≡◌, ◌≤◌, ◌<◌, ◌+◌, ◌++◌, ◌^◌, IfOk, length, map};
ghost use Rattle.pg_directory.specs.Building.{above_of, numbers_of};
ghost use Rattle.pg_directory.specs.Layering.{BuildsLevels};

use crate::building::{InnerPage, build_level, children_of};
use crate::entries::Child;
use ct_base::Memory;
use std::alloc::Global;

/// The pages of a directory above its leaves, those of the lowest level first, their numbers from the top down, and the page at the top.
#[derive(Debug, Drop)]
pub struct UpperPages {
    pub pages: Vec<InnerPage>,
    pub inner: Vec<u32>,
    pub top: Child,
}

/// The numbers of pages, and behind them those of the pages below.
fn numbers_above(
    alloc: Global,
    pages: &[InnerPage],
    below: &mut Vec<u32>,
) -> Result<Vec<u32>, Memory>
    ensures { IfOk result (λ numbers. numbers.items ≡ numbers_of (map above_of pages.now) ++ below.old.items) }
{
    let mut numbers = Vec::new(alloc);
    for page in pages {
        numbers.push(page.number)?;
    }
    numbers.append(below)?;
    Ok(numbers)
}

/// The pages above these leaves, as few as may be. They get the first of these numbers. One leaf is the top itself.
pub fn build_levels(alloc: Global, leaves: &[Child], numbers: &[u32]) -> Result<UpperPages, Memory>
    requires some { 1 ≤ length leaves.now }
    requires few { length leaves.now < 2 ^ 32 }
    requires numbers { length leaves.now ≤ length numbers.now + 1 }
    ensures { IfOk result (λ upper. BuildsLevels leaves.now numbers.now (map above_of upper.pages.items) upper.inner.items upper.top) }
{
    let mut pages = Vec::new(alloc);
    let mut inner = Vec::new(alloc);
    let mut below = Vec::from_slice(alloc, leaves)?;
    let mut level = 0;
    while below.len() > 1 {
        level += 1;
        let mut above = build_level(alloc, level, &below, &numbers[pages.len()..])?;
        inner = numbers_above(alloc, &above, &mut inner)?;
        below = children_of(alloc, &above)?;
        pages.append(&mut above)?;
    }
    Ok(UpperPages {
        pages,
        inner,
        top: below[0],
    })
}
