//! Whether the values of entries stand on the long pages of a store, each page in one of them.

ghost use Rattle.std.specs.Prelude.{◌≡◌, ◌&&◌, not, is_some, List, IsTrue, IsFalse, length, map};
ghost use Rattle.pg_map.specs.Kinds.{Each, StringItem};
ghost use Rattle.pg_map.specs.Readings.{AreAllTaken, IsOneLeft};
ghost use Rattle.pg_directory.specs.Trees.{StorePage, kind_of, IsPage};
ghost use Rattle.pg_directory.specs.FarValues.{StandOr};
ghost use Rattle.pg_directory.specs.FirstPass.{far_of, far_values};
ghost use Rattle.pg_directory.specs.Noting.{long_in, note_of};

use crate::noting::{PageNote, long_note, take_chain};
use crate::passing::FarValue;

/// Takes the long pages of all values. False exactly where the values don't stand over different long pages that were not taken.
pub fn take_values(notes: &[PageNote], taken: &mut [bool], far: &[FarValue]) -> bool
    requires { length taken.old ≡ length notes.now }
    ensures long { length taken.new ≡ length taken.old }
    ensures stand { (pages : List StorePage) (items : List StringItem) → Each IsPage pages → notes.now ≡ map note_of pages → map far_of far.now ≡ far_values items
        → StandOr result (map kind_of pages) items taken.old taken.new }
{
    for i in 0..far.len() {
        if !take_chain(notes, taken, far[i].first, far[i].count) {
            return false;
        }
    }
    true
}

/// Whether a page is a long one that was not taken.
fn is_left(note: PageNote, taken: bool) -> bool
    ensures { result ≡ (is_some (long_in note) && not taken) }
{
    long_note(note).is_some() && !taken
}

/// Whether each long page was taken.
pub fn are_all_taken(notes: &[PageNote], taken: &[bool]) -> bool
    requires { length taken.now ≡ length notes.now }
    ensures yes { IsTrue result → (pages : List StorePage) → notes.now ≡ map note_of pages → AreAllTaken (map kind_of pages) taken.now }
    ensures no { IsFalse result → (pages : List StorePage) → notes.now ≡ map note_of pages → IsOneLeft (map kind_of pages) taken.now }
{
    for i in 0..notes.len() {
        if is_left(notes[i], taken[i]) {
            return false;
        }
    }
    true
}
