//! Leaves that are made anew of places.

ghost use Rattle.std.specs.Prelude.{◌≡◌, ◌≤◌, ◌<◌, ◌+◌, ◌-◌, ◌++◌, OnOk, length};
ghost use Rattle.pg_directory.specs.Levels.{pages_of};
ghost use Rattle.pg_leaves.specs.Relisting.{kept_leaves, made_count, one_if_made, AreMadeBehind};

use ct_base::Memory;
use pg_directory::{Child, EntryAt};
use std::alloc::Global;

/// How many entries a leaf names at most.
const ENTRIES: usize = 681;

/// What becomes of a leaf: it stays, or it is made anew of these places, of which there are 1 to 681.
#[derive(Debug, Drop)]
pub enum LeafNow {
    Kept(Child),
    Made(Vec<EntryAt>),
}

/// How many of so many places the first leaf gets that is made of them. It gets all that it has room for; but where all have room in two leaves,
/// each gets one half, so that both have room for more. Of the last leaf of a directory it is filled also then: keys that come in order,
/// batch by batch, leave full leaves behind them.
fn first_count(count: usize, is_last: bool) -> usize
    requires { 1 ≤ count }
    ensures some { 1 ≤ result }
    ensures most { result ≤ 681 }
    ensures within { result ≤ count }
    ensures all { count ≤ 681 → result ≡ count }
{
    if count <= ENTRIES {
        return count;
    }
    if is_last || count > 2 * ENTRIES {
        return ENTRIES;
    }
    count / 2
}

/// Appends a leaf that is made of these places.
fn put_made(alloc: Global, places: &[EntryAt], into: &mut Vec<LeafNow>) -> Result<(), Memory>
    requires some { 1 ≤ length places.now }
    requires most { length places.now ≤ 681 }
    ensures made { OnOk result (AreMadeBehind into.old.items places.now into.new.items) }
    ensures one { OnOk result (length into.new.items ≡ length into.old.items + 1) }
{
    let own = Vec::from_slice(alloc, places)?;
    into.push(LeafNow::Made(own))?;
    Ok(())
}

/// Appends leaves that are made of these places: none, where there are none. It takes eight bytes a place.
pub(crate) fn put_leaves(
    alloc: Global,
    places: &[EntryAt],
    is_last: bool,
    into: &mut Vec<LeafNow>,
) -> Result<(), Memory>
    ensures made { OnOk result (AreMadeBehind into.old.items places.now into.new.items) }
    ensures few { OnOk result (length into.new.items ≤ length into.old.items + length places.now) }
    ensures fewer { OnOk result (length into.new.items ≤ length into.old.items + 1 + (length places.now - 681)) }
{
    let mut rest = places;
    while !rest.is_empty() {
        let count = first_count(rest.len(), is_last);
        put_made(alloc, &rest[..count], into)?;
        rest = &rest[count..];
    }
    Ok(())
}

/// Whether a leaf is made anew, as a count.
fn one_if_made(leaf: &LeafNow) -> usize
    ensures one { result ≡ one_if_made leaf.now }
    ensures most { result ≤ 1 }
{
    match leaf {
        LeafNow::Kept(_) => 0,
        LeafNow::Made(_) => 1,
    }
}

/// How many of the leaves are made anew, so how many numbers they need.
pub fn made_count(leaves: &[LeafNow]) -> usize
    ensures { result ≡ made_count leaves.now }
{
    let mut count = 0;
    for i in 0..leaves.len() {
        count += one_if_made(&leaves[i]);
    }
    count
}

/// Appends leaves that stay.
pub(crate) fn put_kept(leaves: &[Child], into: &mut Vec<LeafNow>) -> Result<(), Memory>
    ensures { OnOk result (into.new.items ≡ into.old.items ++ kept_leaves leaves.now) }
{
    for leaf in leaves {
        into.push(LeafNow::Kept(*leaf))?;
    }
    Ok(())
}

/// Appends the pages of leaves that don't stay.
pub(crate) fn put_gone(leaves: &[Child], gone: &mut Vec<u32>) -> Result<(), Memory>
    ensures { OnOk result (gone.new.items ≡ gone.old.items ++ pages_of leaves.now) }
{
    for leaf in leaves {
        gone.push(leaf.page)?;
    }
    Ok(())
}
