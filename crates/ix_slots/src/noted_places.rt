//! Places of a list that are noted under bytes.

ghost use Rattle.std.specs.Prelude.{◌≡◌, [], ℕ, List, OnOk};
ghost use Rattle.ix_slots.specs.NotedPlaces.{noted_under, PutsPlace};

use ct_base::Memory;
use std::alloc::Global;
use std::collections::BTreeMap;

/// Places, by the bytes under which they were noted.
#[derive(Drop)]
pub(crate) struct NotedPlaces {
    places: BTreeMap<Vec<u8>, Vec<usize>>,
}

impl NotedPlaces {
    /// No places. It takes no memory.
    pub(crate) fn new(alloc: Global) -> NotedPlaces
        ensures { (q : List ℕ) → noted_under q result.places ≡ [] }
    {
        NotedPlaces {
            places: BTreeMap::new(alloc),
        }
    }

    /// The places under these bytes, in the order in which they were noted. Its cost is the logarithm of the number of places.
    pub(crate) fn under(&self, bytes: &[u8]) -> &[usize]
        ensures { result.now ≡ noted_under bytes.now self.now.places }
    {
        match self.places.get(bytes) {
            Some(places) => places.as_slice(),
            None => &[],
        }
    }

    /// Notes a place. Its cost is the logarithm of the number of places. At an error the places may only be dropped.
    pub(crate) fn note(&mut self, alloc: Global, bytes: Vec<u8>, place: usize) -> Result<(), Memory>
        ensures { OnOk result (PutsPlace self.old.places self.new.places bytes.items place) }
    {
        let before = self.places.remove(bytes.as_slice());
        let mut places = before.unwrap_or(Vec::new(alloc));
        places.push(place)?;
        self.places.insert(bytes, places)?;
        Ok(())
    }
}
