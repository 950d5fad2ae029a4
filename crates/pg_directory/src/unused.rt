//! The free pages of a store that is opened.

ghost use Rattle.std.specs.Prelude.{◌∷◌, [], ◌≡◌, ◌++◌, List, IfOk, OnOk, length, map};
ghost use Rattle.pg_directory.specs.Noting.{note_of};
ghost use Rattle.pg_directory.specs.Trees.{StorePage};
ghost use Rattle.pg_directory.specs.Unused.{one_unused, unused_to};

use crate::noting::PageNote;
use ct_base::Memory;
use std::alloc::Global;

/// Appends the place of a page, if it is noted as free.
fn put_unused(note: PageNote, at: usize, into: &mut Vec<usize>) -> Result<(), Memory>
    ensures { (p : StorePage) → note ≡ note_of p → OnOk result (into.new.items ≡ into.old.items ++ one_unused p at) }
{
    let PageNote::Free = note else {
        return Ok(());
    };
    into.push(at)?;
    Ok(())
}

/// The places of the pages that are free, in order: those that are of no directory and have no entry and no part of a value.
pub fn unused_places(alloc: Global, notes: &[PageNote]) -> Result<Vec<usize>, Memory>
    ensures { (pages : List StorePage) → notes.now ≡ map note_of pages → IfOk result (λ places. places.items ≡ unused_to pages (length notes.now)) }
{
    let mut places = Vec::new(alloc);
    for at in 0..notes.len() {
        put_unused(notes[at], at, &mut places)?;
    }
    Ok(places)
}
