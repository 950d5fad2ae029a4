//! Where names stand.

ghost use Rattle.std.specs.Prelude.{◌≡◌, ◌∷◌, ◌++◌, [], IfOk, OnOk, map};
ghost use Rattle.std.specs.FinMap.{empty, entries};
ghost use Rattle.tx_document.specs.Entries.{entry_of};
ghost use Rattle.tx_document.specs.Places.{with_place};

use crate::entries::Entry;
use crate::place_names::PlaceName;
use ct_base::{Memory, Pair};
use std::alloc::Global;
use std::collections::BTreeMap;
use std::marker::Model;

/// The places of names, seen as a finite map in the order of the names' bytes.
#[derive(Drop)]
pub(crate) struct Places {
    entries: BTreeMap<PlaceName, Vec<Pair>>,
    /// The name that is looked up, in memory that is used again for each.
    sought: PlaceName,
}

impl Model for Places {
    ghost use Rattle.std.specs.BTreeMap.{IsOrdered};
    ghost use Rattle.std.specs.Ordering.{nat_cmp};
    ghost use Rattle.std.specs.Cmp.Lexicographic.{slice_cmp};
    ghost use Rattle.tx_document.specs.Places.{PlaceMap, map_of, place_map_code};

    ghost Value = { PlaceMap };

    ghost coded = { place_map_code };

    ghost view = { λ p. map_of p.entries.entries };

    ghost invariant = { λ p. IsOrdered (slice_cmp nat_cmp) p.entries };
}

impl Places {
    /// No names. It takes no memory.
    pub(crate) fn new(alloc: Global) -> Places
        ensures { result ≡ empty }
    {
        Places {
            entries: BTreeMap::new(alloc),
            sought: PlaceName::new(alloc),
        }
    }

    /// Notes a further place of a token in a stream. It looks the name up once, at the cost of the logarithm of the number of
    /// names, and copies the token only where the name is new.
    pub(crate) fn note(
        &mut self,
        alloc: Global,
        stream: u8,
        token: &[u8],
        place: Pair,
    ) -> Result<(), Memory>
        ensures { OnOk result (self.new ≡ with_place self.old (stream ∷ token.now) place) }
    {
        self.sought.set(stream, token)?;
        match self.entries.get_mut(&self.sought) {
            Some(places) => add_place(places, place),
            None => {
                let places = one_place(alloc, place)?;
                self.entries
                    .insert(PlaceName::of(alloc, stream, token)?, places)?;
                Ok(())
            }
        }
    }

    /// The entries of the names, in the order of the names' bytes, without a copy.
    pub(crate) fn into_entries(self, alloc: Global) -> Result<Vec<Entry>, Memory>
        ensures { IfOk result (λ v. v.items ≡ map entry_of (entries self)) }
    {
        let mut list = Vec::new(alloc);
        for (name, places) in self.entries {
            list.push(name.into_entry(places))?;
        }
        Ok(list)
    }
}

/// A place behind others.
fn add_place(others: &mut Vec<Pair>, place: Pair) -> Result<(), Memory>
    ensures { OnOk result (others.new.items ≡ others.old.items ++ place ∷ []) }
{
    others.push(place)?;
    Ok(())
}

/// One place alone.
fn one_place(alloc: Global, place: Pair) -> Result<Vec<Pair>, Memory>
    ensures { IfOk result (λ places. places.items ≡ place ∷ []) }
{
    let mut places = Vec::new(alloc);
    places.push(place)?;
    Ok(places)
}
