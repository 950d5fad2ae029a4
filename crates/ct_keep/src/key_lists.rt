//! Lists of keys that take little memory.

ghost use Rattle.std.specs.Prelude.{◌≡◌, ◌++◌, [], ◌∷◌, OnOk, OnErr};
ghost use Rattle.ct_keep.specs.Undoing.{without_keys};

use crate::sorted_entries::SortedEntries;
use ct_base::Memory;
use std::alloc::Global;
use std::marker::Model;

/// Keys, one behind the other: each takes its bytes, and eight more for its length.
#[derive(Debug, Drop)]
pub(crate) struct KeyList {
    lengths: Vec<usize>,
    bytes: Vec<u8>,
}

impl Model for KeyList {
    ghost use Rattle.std.specs.Prelude.{List, ℕ, ◌≡◌, length, sum};
    ghost use Rattle.ct_keep.specs.KeyLists.{cut_keys};

    ghost Value = { List (List ℕ) };

    ghost view = { λ l. cut_keys l.lengths.items l.bytes.items };

    ghost invariant = { λ l. length l.bytes.items ≡ sum l.lengths.items };
}

impl KeyList {
    /// No keys. It takes no memory.
    pub(crate) fn new(alloc: Global) -> KeyList
        ensures { result ≡ [] }
    {
        KeyList {
            lengths: Vec::new(alloc),
            bytes: Vec::new(alloc),
        }
    }

    /// Adds a key behind all others.
    pub(crate) fn push(&mut self, key: &[u8]) -> Result<(), Memory>
        ensures ok { OnOk result (self.new ≡ self.old ++ key.now ∷ []) }
        ensures err { OnErr result (self.new ≡ self.old) }
    {
        self.lengths.reserve(1)?;
        self.bytes.extend_from_slice(key)?;
        self.lengths.push_reserved(key.len());
        Ok(())
    }

    /// Takes the entries of the keys out. It needs no memory.
    pub(crate) fn take_from(self, held: &mut SortedEntries)
        ensures { held.new ≡ without_keys self held.old }
    {
        let KeyList { lengths, bytes } = self;
        let mut rest = bytes.as_slice();
        for length in lengths {
            let (key, later) = rest.split_at(length);
            let _ = held.take(key);
            rest = later;
        }
    }
}
