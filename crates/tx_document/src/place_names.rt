//! The names under which the places of a document are noted.

ghost use Rattle.std.specs.Prelude.{◌≡◌, ◌∷◌, Some, IfOk, OnOk, nat_eq, refl};
ghost use Rattle.std.specs.Ordering.{nat_cmp};
ghost use Rattle.std.specs.Cmp.{partial_equiv_from_equiv};
ghost use Rattle.std.specs.Cmp.Lexicographic.{nat_list_cmp_total, nat_list_eq_equiv, pointwise, slice_cmp, texts_po, texts_ties};
ghost use Rattle.tx_document.specs.Entries.{entry_of};

use crate::entries::Entry;
use ct_base::{Memory, Pair, Pairs};
use std::alloc::Global;
use std::cmp::Ordering;
use std::marker::Model;
use tx_chars::Key;

/// A stream and a token, or the stream of sections and the name of one, in the order of their bytes.
#[derive(Drop)]
pub(crate) struct PlaceName {
    stream: u8,
    token: Vec<u8>,
}

impl Model for PlaceName {
    ghost use Rattle.std.specs.Prelude.{ℕ, List, ◌∷◌};

    ghost Value = { List ℕ };

    ghost view = { λ n. n.stream ∷ n.token.items };
}

impl PlaceName {
    /// A name that is to be set. It takes no memory.
    pub(crate) fn new(alloc: Global) -> PlaceName {
        PlaceName {
            stream: 0,
            token: Vec::new(alloc),
        }
    }

    /// The name of a copy of this token.
    pub(crate) fn of(alloc: Global, stream: u8, token: &[u8]) -> Result<PlaceName, Memory>
        ensures { IfOk result (λ n. n ≡ stream ∷ token.now) }
    {
        Ok(PlaceName {
            stream,
            token: Vec::from_slice(alloc, token)?,
        })
    }

    /// Becomes the name of this token, in the same memory.
    pub(crate) fn set(&mut self, stream: u8, token: &[u8]) -> Result<(), Memory>
        ensures { OnOk result (self.new ≡ stream ∷ token.now) }
    {
        self.stream = stream;
        self.token.clear();
        self.token.extend_from_slice(token)?;
        Ok(())
    }

    /// The entry of these places, without a copy.
    pub(crate) fn into_entry(self, places: Vec<Pair>) -> Entry
        ensures { result ≡ entry_of (self, places.items) }
    {
        let PlaceName { stream, token } = self;
        Entry {
            stream,
            token: Key::of(token),
            places: Pairs::of(places),
        }
    }
}

/// The order of names, compared byte by byte: most differ within a few bytes, where this costs less than the order of slices.
fn name_cmp<'a>(a: &'a PlaceName, b: &'a PlaceName) -> Ordering
    ensures { result ≡ slice_cmp nat_cmp a.now b.now }
{
    let tokens = PartialOrd::partial_cmp(&a.token.as_slice(), &b.token.as_slice());
    a.stream
        .cmp(&b.stream)
        .then(tokens.unwrap_or(Ordering::Equal))
}

impl PartialEq for PlaceName {
    ghost eq = { pointwise nat_eq };

    ghost laws = { partial_equiv_from_equiv nat_list_eq_equiv };

    fn eq(&self, other: &PlaceName) -> bool {
        self.stream == other.stream && self.token.as_slice() == other.token.as_slice()
    }
}

impl Eq for PlaceName {
    ghost laws = { nat_list_eq_equiv };
}

impl PartialOrd for PlaceName {
    ghost partial_cmp = { λ x y. Some (slice_cmp nat_cmp x y) };

    ghost laws = { texts_po };

    fn partial_cmp(&self, other: &PlaceName) -> Option<Ordering> {
        Some(self.cmp(other))
    }
}

impl Ord for PlaceName {
    ghost cmp = { slice_cmp nat_cmp };

    ghost total = { nat_list_cmp_total };

    ghost matches_partial_cmp = { λ x y. refl };

    ghost matches_eq = { texts_ties };

    fn cmp(&self, other: &PlaceName) -> Ordering {
        name_cmp(self, other)
    }
}
