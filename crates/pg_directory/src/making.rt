//! A directory, made anew.

ghost use Rattle.std.specs.Prelude.{All, ◌≡◌, ◌≤◌, ◌<◌, ◌+◌, ◌-◌, ◌^◌, IfOk, IfSome, IsNone, length, drop};
ghost use Rattle.pg_directory.specs.Making.{IsNewDirectory, NeedsTooMany};

use crate::building::InnerPage;
use crate::entries::{Child, EntryAt};
use crate::layering::build_levels;
use crate::leaves::{LeafPage, build_leaves, children_of_leaves, leaves_for};
use crate::numbering::numbers_from;
use ct_base::Memory;
use std::alloc::Global;

/// A directory that is to be written: its leaves, what stands for them a level above, the pages above them, their numbers from the top down,
/// and the top.
#[derive(Debug, Drop)]
pub struct NewDirectory {
    pub leaves: Vec<LeafPage>,
    pub children: Vec<Child>,
    pub upper: Vec<InnerPage>,
    pub inner: Vec<u32>,
    pub top: Child,
}

/// The number of home pages of a store there may be.
const MOST: usize = 2147483648;

/// How many home pages there are once so many pages were taken, of which so many were free.
fn homes_after(homes: u32, free: usize, taken: usize) -> usize
    requires homes { homes ≤ 2 ^ 31 }
    requires few { taken ≤ 2 ^ 32 }
    ensures { result ≡ homes + (taken - free) }
{
    homes as usize + taken.saturating_sub(free)
}

/// The numbers behind so many.
fn behind(numbers: &[u32], count: usize) -> &[u32]
    requires { count ≤ length numbers.now }
    ensures { result.now ≡ drop count numbers.now }
{
    &numbers[count..]
}

/// The directory of entries whose places are given in order. Its pages are the first of these free ones, and then pages behind all others.
/// It takes 24 bytes an entry. None only where the store would have more than 2^31 pages.
pub fn make_directory(
    alloc: Global,
    places: &[EntryAt],
    free: &[usize],
    homes: u32,
) -> Result<Option<NewDirectory>, Memory>
    requires some { 1 ≤ length places.now }
    requires few { length places.now < 2 ^ 60 }
    requires free { All (λ at. at < 2 ^ 31) free.now }
    requires homes { homes ≤ 2 ^ 31 }
    requires within { length free.now ≤ homes }
    ensures made { IfOk result (λ made. IfSome made (λ d. IsNewDirectory homes free.now places.now d)) }
    ensures none { IfOk result (λ made. IsNone made → NeedsTooMany homes free.now places.now) }
{
    let count = leaves_for(places.len());
    if 2 * count > MOST {
        return Ok(None);
    }
    let numbers = numbers_from(alloc, free, homes, 2 * count)?;
    let leaves = build_leaves(alloc, places, &numbers)?;
    let children = children_of_leaves(alloc, &leaves)?;
    let upper = build_levels(alloc, &children, behind(&numbers, count))?;
    if homes_after(homes, free.len(), count + upper.pages.len()) > MOST {
        return Ok(None);
    }
    Ok(Some(NewDirectory {
        leaves,
        children,
        upper: upper.pages,
        inner: upper.inner,
        top: upper.top,
    }))
}
