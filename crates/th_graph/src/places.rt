//! Where the pairs that have a term stand in a thesaurus.

ghost use Rattle.std.specs.Prelude.{◌≡◌, [], ℕ, List, OnOk, OnErr};
ghost use Rattle.th_graph.specs.Places.{noted_places, with_place};

use crate::terms::Term;
use ct_base::Memory;
use std::alloc::Global;
use std::collections::BTreeMap;

/// For each term the places of the pairs that have it.
#[derive(Drop)]
pub(crate) struct PairPlaces {
    places: BTreeMap<String, Vec<usize>>,
}

impl PairPlaces {
    /// No places. It takes no memory.
    pub(crate) fn new(alloc: Global) -> PairPlaces
        ensures { (q : List ℕ) → noted_places q result.places ≡ [] }
    {
        PairPlaces {
            places: BTreeMap::new(alloc),
        }
    }

    /// The places that were noted for a term. Its cost is the logarithm of the number of terms.
    pub(crate) fn of(&self, term: &Term) -> &[usize]
        ensures { result.now ≡ noted_places term.now self.now.places }
    {
        match self.places.get(term.as_str()) {
            Some(places) => places.as_slice(),
            None => &[],
        }
    }

    /// Notes a place for a term. Where there is no memory each term has the places that it had. Its cost is the logarithm of the number
    /// of terms.
    pub(crate) fn note(&mut self, alloc: Global, term: &Term, place: usize) -> Result<(), Memory>
        ensures ok { OnOk result ((q : List ℕ) → noted_places q self.new.places ≡ with_place term.now place self.old.places q) }
        ensures err { OnErr result ((q : List ℕ) → noted_places q self.new.places ≡ noted_places q self.old.places) }
    {
        let key = String::from_str(alloc, term.as_str())?;
        self.places.entry(key)?.or_default().push(place)?;
        Ok(())
    }
}
