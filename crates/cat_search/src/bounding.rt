//! Which places of a sub-index a search takes.
#![tactic(auto)]

ghost use Rattle.std.specs.Prelude.{◌≡◌, ◌≤◌, ℕ, Bool, List, true, false, length, IfOk};
ghost use Rattle.cat_walk.specs.Places.{comes_before};

use ct_base::Memory;
use std::alloc::Global;

/// Which places of a sub-index are taken, and between which they lie. A place is the values of a row in the columns of the sub-index, a number as
/// the eight bytes of a row key and a text behind its length, and then the row's key.
pub trait PlaceRange {
    /// Whether a place is taken.
    ghost takes: { Self → List ℕ → Bool };

    /// A place behind which all stand that are taken: there the search begins.
    fn first(&self) -> &[u8]
        ensures { (place : List ℕ) → 1 ≤ length place → takes self.now place ≡ true → comes_before result.now place ≡ true };

    /// Whether a place is taken.
    fn takes(&self, alloc: Global, place: &[u8]) -> Result<bool, Memory>
        ensures { IfOk result (λ is. is ≡ takes self.now place.now) };

    /// Whether no place from this one on is taken: there the search ends.
    fn is_past(&self, place: &[u8]) -> bool
        ensures { result ≡ true → (later : List ℕ) → comes_before later place.now ≡ false → takes self.now later ≡ false };
}
