//! Where the postings of a query are read.

ghost use Rattle.std.specs.Prelude.{◌≡◌, ℕ, IfOk};
ghost use Rattle.q_tree.specs.Scores.{DocPostings};
ghost use Rattle.ix_cursor.specs.Unions.{union_at};
ghost use Rattle.ix_lists.specs.Documents.{places_at};

use ct_base::{Memory, Pair};
use ix_lists::Postings;
use q_tree::Slot;
use std::alloc::Global;

/// What has the postings of documents, by slots and by sections: the rows that were read for a query, or a single document that is scored
/// alone.
pub(crate) trait Source {
    /// The postings of each document.
    ghost postings: { Self → ℕ → DocPostings };

    /// What has to hold, so that they can be read.
    ghost well: { Self → Type 0 };

    /// The documents of each token that a slot takes in a stream.
    fn tokens(&self, alloc: Global, stream: u8, slot: &Slot) -> Result<Vec<Postings<u32>>, Memory>
        requires { well self.now }
        ensures { IfOk result (λ v. (d : ℕ) → union_at v.items d ≡ (postings self.now d).positions stream slot.now) };

    /// The documents of a section.
    fn section(&self, alloc: Global, name: &str) -> Result<Postings<Pair>, Memory>
        requires { well self.now }
        ensures { IfOk result (λ p. (d : ℕ) → places_at p d ≡ (postings self.now d).spans name.now) };
}
