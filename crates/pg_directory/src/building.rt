//! The levels of a directory above its leaves, made anew.

ghost use Rattle.std.specs.Prelude.{All, ◌≡◌, ◌≤◌, ◌<◌, ◌*◌, ◌^◌, IfOk, length, map, take, drop};
ghost use Rattle.pg_directory.specs.Building.{above_of, child_of, pages_above, BuildsLevel};

use crate::entries::Child;
use ct_base::Memory;
use std::alloc::Global;

/// How many pages a page above the leaves names at most.
const NAMED: usize = 408;

/// A page above the leaves that is to be written: its number, how far it is above them, and the pages that it names.
#[derive(Debug, Drop)]
pub struct InnerPage {
    pub number: u32,
    pub level: u8,
    pub children: Vec<Child>,
}

/// How many pages a level takes that names so many.
pub fn pages_above(count: usize) -> usize
    requires { count < 2 ^ 32 }
    ensures { result ≡ pages_above count }
{
    (count + (NAMED - 1)) / NAMED
}

/// The pages that a page names which comes behind so many others of its level.
fn named_there(alloc: Global, below: &[Child], before: usize) -> Result<Vec<Child>, Memory>
    requires { 408 * before < length below.now }
    ensures { IfOk result (λ own. own.items ≡ take 408 (drop (408 * before) below.now)) }
{
    let start = NAMED * before;
    let count = NAMED.min(below.len() - start);
    let own = Vec::from_slice(alloc, &below[start..start + count])?;
    Ok(own)
}

/// The pages of a level that name these pages, as many in each as there is room for. They get the first of these numbers.
pub fn build_level(
    alloc: Global,
    level: u8,
    below: &[Child],
    numbers: &[u32],
) -> Result<Vec<InnerPage>, Memory>
    requires few { length below.now < 2 ^ 32 }
    requires numbers { pages_above (length below.now) ≤ length numbers.now }
    ensures { IfOk result (λ pages. BuildsLevel level below.now numbers.now (map above_of pages.items)) }
{
    let mut pages = Vec::new(alloc);
    for i in 0..pages_above(below.len()) {
        let children = named_there(alloc, below, i)?;
        pages.push(InnerPage {
            number: numbers[i],
            level,
            children,
        })?;
    }
    Ok(pages)
}

/// What stands for pages a level above: for each its number, and the least entry below it.
pub fn children_of(alloc: Global, pages: &[InnerPage]) -> Result<Vec<Child>, Memory>
    requires { All (λ p. 1 ≤ length p.children.items) pages.now }
    ensures { IfOk result (λ children. children.items ≡ map child_of (map above_of pages.now)) }
{
    let mut children = Vec::new(alloc);
    for i in 0..pages.len() {
        let page = &pages[i];
        children.push(Child {
            page: page.number,
            least: page.children[0].least,
        })?;
    }
    Ok(children)
}
