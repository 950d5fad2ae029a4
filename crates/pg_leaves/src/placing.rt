//! The leaves of a directory under the numbers of their pages.

ghost use Rattle.std.specs.Prelude.{◌≡◌, ◌≤◌, IfOk, length, map};
ghost use Rattle.pg_directory.specs.Leaves.{leaf_at, leaf_child};
ghost use Rattle.pg_leaves.specs.Relisting.{children_now, made_count, written_now};

use crate::parting::LeafNow;
use ct_base::Memory;
use pg_directory::{Child, EntryAt, LeafPage};
use std::alloc::Global;

/// What stands a level above for the leaves of a directory, and the leaves that are to be written.
#[derive(Debug, Drop)]
pub struct Placed {
    pub children: Vec<Child>,
    pub written: Vec<LeafPage>,
}

/// What stands a level above for a leaf: its number, and its first entry; where it has none, the place of no entry.
fn child_for(number: u32, places: &[EntryAt]) -> Child
    ensures { result ≡ leaf_child (record { number = number; entries = places.now }) }
{
    let least = if places.is_empty() {
        EntryAt { page: 0, slot: 0 }
    } else {
        places[0]
    };
    Child {
        page: number,
        least,
    }
}

/// Gives each leaf that is made anew the next of these numbers. It takes 12 bytes a leaf, and 40 more for one that is made anew.
pub fn place_leaves(alloc: Global, now: Vec<LeafNow>, numbers: &[u32]) -> Result<Placed, Memory>
    requires { made_count now.items ≤ length numbers.now }
    ensures children { IfOk result (λ placed. placed.children.items ≡ children_now now.items numbers.now) }
    ensures written { IfOk result (λ placed. map leaf_at placed.written.items ≡ written_now now.items numbers.now) }
{
    let mut children = Vec::new(alloc);
    let mut written = Vec::new(alloc);
    let mut rest = numbers;
    for leaf in now {
        match leaf {
            LeafNow::Kept(child) => children.push(child)?,
            LeafNow::Made(entries) => {
                let number = rest[0];
                children.push(child_for(number, &entries))?;
                written.push(LeafPage { number, entries })?;
                rest = &rest[1..];
            }
        }
    }
    Ok(Placed { children, written })
}
