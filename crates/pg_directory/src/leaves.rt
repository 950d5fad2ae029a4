//! The leaves of a directory, made anew.

ghost use Rattle.std.specs.Prelude.{All, ◌≡◌, ◌≤◌, ◌<◌, ◌*◌, ◌^◌, IfOk, length, map, take, drop};
ghost use Rattle.pg_directory.specs.Leaves.{leaf_at, leaf_child, leaves_for, BuildsLeaves};

use crate::entries::{Child, EntryAt};
use ct_base::Memory;
use std::alloc::Global;

/// How many entries a leaf names at most.
const ENTRIES: usize = 681;

/// A leaf that is to be written: its number, and where the entries stand that it names.
#[derive(Debug, Drop)]
pub struct LeafPage {
    pub number: u32,
    pub entries: Vec<EntryAt>,
}

/// How many leaves name so many entries.
pub fn leaves_for(count: usize) -> usize
    requires { count < 2 ^ 60 }
    ensures { result ≡ leaves_for count }
{
    (count + (ENTRIES - 1)) / ENTRIES
}

/// The entries that a leaf names which comes behind so many others.
fn entries_there(alloc: Global, places: &[EntryAt], before: usize) -> Result<Vec<EntryAt>, Memory>
    requires { 681 * before < length places.now }
    ensures { IfOk result (λ own. own.items ≡ take 681 (drop (681 * before) places.now)) }
{
    let start = ENTRIES * before;
    let count = ENTRIES.min(places.len() - start);
    let own = Vec::from_slice(alloc, &places[start..start + count])?;
    Ok(own)
}

/// Leaves that name these entries, as many in each as there is room for. They get the first of these numbers.
pub fn build_leaves(
    alloc: Global,
    places: &[EntryAt],
    numbers: &[u32],
) -> Result<Vec<LeafPage>, Memory>
    requires few { length places.now < 2 ^ 60 }
    requires numbers { leaves_for (length places.now) ≤ length numbers.now }
    ensures { IfOk result (λ leaves. BuildsLeaves places.now numbers.now (map leaf_at leaves.items)) }
{
    let mut leaves = Vec::new(alloc);
    for i in 0..leaves_for(places.len()) {
        let entries = entries_there(alloc, places, i)?;
        leaves.push(LeafPage {
            number: numbers[i],
            entries,
        })?;
    }
    Ok(leaves)
}

/// What stands for leaves a level above: for each its number, and its first entry.
pub fn children_of_leaves(alloc: Global, leaves: &[LeafPage]) -> Result<Vec<Child>, Memory>
    requires { All (λ leaf. 1 ≤ length leaf.entries.items) leaves.now }
    ensures { IfOk result (λ children. children.items ≡ map leaf_child (map leaf_at leaves.now)) }
{
    let mut children = Vec::new(alloc);
    for i in 0..leaves.len() {
        let leaf = &leaves[i];
        children.push(Child {
            page: leaf.number,
            least: leaf.entries[0],
        })?;
    }
    Ok(children)
}
