//! Thesauri, and how pairs are added to them.

ghost use Rattle.std.specs.Prelude.{◌≡◌, ◌++◌, ◌∷◌, [], OnOk, OnErr};
ghost use Rattle.std.specs.List.{list_any};
ghost use Rattle.th_graph.specs.Pairs.{has_term_pair, term_pair, same_term_pair};
ghost use Rattle.th_graph.specs.Places.{passes_at};
ghost use Rattle.th_graph.specs.Relating.{has_preferred, is_known, is_preference, prefers, Relates};

use crate::faults::RelateFault;
use crate::pairs::{PairKind, TermPair, stated_pair};
use crate::places::PairPlaces;
use crate::terms::Term;
use ct_base::Memory;
use q_tree::Relation;
use std::alloc::Global;
use std::marker::Model;

/// How many pairs a thesaurus has at most.
pub const PAIR_LIMIT: usize = 10_000;

/// A thesaurus, seen as the list of its pairs, in the order in which they were added.
#[derive(Drop)]
pub struct Thesaurus {
    pub(crate) pairs: Vec<TermPair>,
    pub(crate) places: PairPlaces,
}

impl Model for Thesaurus {
    ghost use Rattle.std.specs.Prelude.{List};
    ghost use Rattle.th_graph.specs.declared.pairs.TermPair.{TermPair};
    ghost use Rattle.th_graph.specs.Places.{AreNoted};

    ghost Value = { List TermPair };

    ghost view = { λ t. t.pairs.items };

    ghost invariant = { λ t. AreNoted t.pairs.items t.places.places };
}

/// Whether pairs of this relation say which term is preferred.
fn is_preference(relation: Relation) -> bool
    ensures { result ≡ is_preference relation }
{
    match relation {
        Relation::Preferred => true,
        Relation::Syn => false,
        Relation::Broader => false,
        Relation::Narrower => false,
    }
}

impl Thesaurus {
    ghost use Rattle.std.specs.Prelude.{[]};

    /// A thesaurus without pairs. It takes no memory; what is added later does.
    pub fn new(alloc: Global) -> Thesaurus
        ensures { result ≡ [] }
    {
        Thesaurus {
            pairs: Vec::new(alloc),
            places: PairPlaces::new(alloc),
        }
    }

    /// Whether the pair at a place, if one stands there, is that of this kind and these terms.
    fn is_at(&self, place: usize, kind: PairKind, first: &Term, second: &Term) -> bool
        ensures { result ≡ passes_at self.now (same_term_pair (term_pair kind first.now second.now)) place }
    {
        match self.pairs.get(place) {
            Some(pair) => pair.is(kind, first, second),
            None => false,
        }
    }

    /// Whether the pair stands at one of these places.
    fn is_at_one(&self, places: &[usize], kind: PairKind, first: &Term, second: &Term) -> bool
        ensures { result ≡ list_any (passes_at self.now (same_term_pair (term_pair kind first.now second.now))) places.now }
    {
        let mut rest = places;
        while let [place, later @ ..] = rest {
            if self.is_at(*place, kind, first, second) {
                return true;
            }
            rest = later;
        }
        false
    }

    /// Whether the pair is there. Its cost is the lesser number of pairs that one of its terms has.
    fn has(&self, kind: PairKind, first: &Term, second: &Term) -> bool
        ensures { result ≡ has_term_pair (term_pair kind first.now second.now) self.now }
    {
        let of_first = self.places.of(first);
        let of_second = self.places.of(second);
        if of_first.len() <= of_second.len() {
            self.is_at_one(of_first, kind, first, second)
        } else {
            self.is_at_one(of_second, kind, first, second)
        }
    }

    /// Whether the pair at a place, if one stands there, says which term is preferred to this one.
    fn prefers_at(&self, place: usize, term: &Term) -> bool
        ensures { result ≡ passes_at self.now (prefers term.now) place }
    {
        match self.pairs.get(place) {
            Some(pair) => pair.prefers(term),
            None => false,
        }
    }

    /// Whether a term is preferred to this one. Its cost is the number of pairs that the term has.
    fn has_preferred(&self, term: &Term) -> bool
        ensures { result ≡ has_preferred term.now self.now }
    {
        let mut rest = self.places.of(term);
        while let [place, later @ ..] = rest {
            if self.prefers_at(*place, term) {
                return true;
            }
            rest = later;
        }
        false
    }

    /// Whether the pair that these state is there, or states a preferred term of one that has a preferred term.
    fn is_known(&self, relation: Relation, a: &Term, b: &Term) -> bool
        ensures { result ≡ is_known relation a.now b.now self.now }
    {
        let (kind, first, second) = stated_pair(relation, a, b);
        self.has(kind, first, second) || (is_preference(relation) && self.has_preferred(a))
    }

    /// Puts a pair of a store behind the others. Whether it is there already isn't asked. Nothing is added where there is no memory. Its cost
    /// is the logarithm of the number of terms.
    pub fn put(&mut self, pair: TermPair) -> Result<(), Memory>
        ensures ok { OnOk result (self.new ≡ self.old ++ pair ∷ []) }
        ensures err { OnErr result (self.new ≡ self.old) }
    {
        // The pair itself comes last. Where there is no memory for it, the place that was noted has no pair, or later another one: it does
        // no harm, as the pair at a place is looked at before it is believed.
        let alloc = *self.pairs.allocator();
        let place = self.pairs.len();
        self.places.note(alloc, &pair.first, place)?;
        self.places.note(alloc, &pair.second, place)?;
        self.pairs.push(pair)?;
        Ok(())
    }

    /// Adds the pair which states that `b` is a synonym of `a`, broader or narrower than it, or preferred to it. Nothing is added where the
    /// pair is there, where `a` has a preferred term and is to get one more, where there are 10,000 pairs, or where there is no memory.
    ///
    /// Its cost is the logarithm of the number of terms, and the number of pairs that one of both terms has, of which the term with fewer
    /// is taken; for a preferred term the number of pairs that `a` has.
    pub fn relate(&mut self, a: &Term, relation: Relation, b: &Term) -> Result<(), RelateFault>
        ensures { Relates result self.old self.new relation a.now b.now }
    {
        if self.is_known(relation, a, b) {
            return Err(RelateFault::Known);
        }
        if self.pairs.len() >= PAIR_LIMIT {
            return Err(RelateFault::TooMany);
        }
        let (kind, first, second) = stated_pair(relation, a, b);
        self.put(TermPair::of(kind, first, second)?)?;
        Ok(())
    }
}
