//! The expansion of a term.

ghost use Rattle.std.specs.Prelude.{◌≡◌, ◌≤◌, ◌++◌, ◌∷◌, [], OnOk, length};
ghost use Rattle.std.specs.Bool.{if◌then◌else◌};
ghost use Rattle.std.specs.List.{flat_map, insert};
ghost use Rattle.th_graph.specs.Answers.{AreWithinLimit, Expands, Gathers};
ghost use Rattle.th_graph.specs.Expansions.{expansion, next_of, next_terms, or_itself, terms_within};
ghost use Rattle.th_graph.specs.Places.{next_at};
ghost use Rattle.th_graph.specs.Rising.{with_ordered_terms};

use crate::faults::ExpandFault;
use crate::pairs::{PairKind, TermPair};
use crate::searching::search;
use crate::terms::Term;
use crate::thesauri::Thesaurus;
use ct_base::Memory;
use q_tree::Relation;
use std::alloc::Global;

/// How many terms an expansion has at most, the term itself among them.
pub const EXPANSION_LIMIT: u32 = 1024;

/// Puts a term among those that were found, and behind the new ones, unless it was found already.
fn put_term(found: &mut Vec<Term>, newer: &mut Vec<Term>, term: &Term) -> Result<(), ExpandFault>
    requires { AreWithinLimit found.old.items }
    ensures { Gathers result found.old.items newer.old.items found.new.items newer.new.items (term.now ∷ []) }
{
    let Err(place) = search(found.as_slice(), term) else {
        return Ok(());
    };
    if found.len() >= EXPANSION_LIMIT as usize {
        return Err(ExpandFault::TooMany);
    }
    insert_copy(found, place, term)?;
    push_copy(newer, term)?;
    Ok(())
}

fn insert_copy(terms: &mut Vec<Term>, place: usize, term: &Term) -> Result<(), Memory>
    requires { place ≤ length terms.old.items }
    ensures { OnOk result (terms.new.items ≡ insert terms.old.items place term.now) }
{
    terms.insert(place, term.clone()?)?;
    Ok(())
}

fn push_copy(terms: &mut Vec<Term>, term: &Term) -> Result<(), Memory>
    ensures { OnOk result (terms.new.items ≡ terms.old.items ++ term.now ∷ []) }
{
    terms.push(term.clone()?)?;
    Ok(())
}

/// Puts a copy of a term, where a test passed.
fn put_if(
    passed: bool,
    term: &Term,
    found: &mut Vec<Term>,
    newer: &mut Vec<Term>,
) -> Result<(), ExpandFault>
    requires { AreWithinLimit found.old.items }
    ensures { Gathers result found.old.items newer.old.items found.new.items newer.new.items (if passed then term.now ∷ [] else []) }
{
    if passed {
        return put_term(found, newer, term);
    }
    Ok(())
}

impl TermPair {
    /// Puts copies of the terms to which the pair leads from this one.
    fn put_next(
        &self,
        relation: Relation,
        term: &Term,
        found: &mut Vec<Term>,
        newer: &mut Vec<Term>,
    ) -> Result<(), ExpandFault>
        requires { AreWithinLimit found.old.items }
        ensures { Gathers result found.old.items newer.old.items found.new.items newer.new.items (next_of relation term.now self.now) }
    {
        match relation {
            Relation::Syn => {
                let begins = self.begins(PairKind::Synonyms, term);
                put_if(begins, &self.second, found, newer)?;
                let ends = self.ends(PairKind::Synonyms, term);
                put_if(ends, &self.first, found, newer)
            }
            Relation::Broader => {
                let begins = self.begins(PairKind::ToBroader, term);
                put_if(begins, &self.second, found, newer)
            }
            Relation::Narrower => {
                let ends = self.ends(PairKind::ToBroader, term);
                put_if(ends, &self.first, found, newer)
            }
            Relation::Preferred => {
                let begins = self.begins(PairKind::ToPreferred, term);
                put_if(begins, &self.second, found, newer)
            }
        }
    }
}

impl Thesaurus {
    /// Puts copies of the terms to which the pair at a place, if one stands there, leads from this one.
    fn put_next_at(
        &self,
        place: usize,
        relation: Relation,
        term: &Term,
        found: &mut Vec<Term>,
        newer: &mut Vec<Term>,
    ) -> Result<(), ExpandFault>
        requires { AreWithinLimit found.old.items }
        ensures { Gathers result found.old.items newer.old.items found.new.items newer.new.items (next_at self.now relation term.now place) }
    {
        match self.pairs.get(place) {
            Some(pair) => pair.put_next(relation, term, found, newer),
            None => Ok(()),
        }
    }

    /// Puts copies of the terms to which one step leads from this one. It looks at each pair that the term has, and copies only terms that
    /// weren't found yet.
    fn put_next_terms(
        &self,
        relation: Relation,
        term: &Term,
        found: &mut Vec<Term>,
        newer: &mut Vec<Term>,
    ) -> Result<(), ExpandFault>
        requires { AreWithinLimit found.old.items }
        ensures { Gathers result found.old.items newer.old.items found.new.items newer.new.items (next_terms self.now relation term.now) }
    {
        let mut rest = self.places.of(term);
        while let [place, later @ ..] = rest {
            self.put_next_at(*place, relation, term, found, newer)?;
            rest = later;
        }
        Ok(())
    }

    /// Puts copies of the terms to which one step leads from the fresh ones.
    fn widen(
        &self,
        relation: Relation,
        found: &mut Vec<Term>,
        newer: &mut Vec<Term>,
        fresh: &[Term],
    ) -> Result<(), ExpandFault>
        requires { AreWithinLimit found.old.items }
        ensures { Gathers result found.old.items newer.old.items found.new.items newer.new.items (flat_map (next_terms self.now relation) fresh.now) }
    {
        let mut rest = fresh;
        while let [term, later @ ..] = rest {
            self.put_next_terms(relation, term, found, newer)?;
            rest = later;
        }
        Ok(())
    }

    /// The terms within so many steps of a term. Each of them is looked at once.
    fn reach(
        &self,
        alloc: Global,
        relation: Relation,
        term: &Term,
        rounds: u32,
    ) -> Result<Vec<Term>, ExpandFault>
        ensures { Expands result (terms_within self.now relation rounds term.now) }
    {
        let mut found = Vec::new(alloc);
        push_copy(&mut found, term)?;
        let mut fresh = Vec::new(alloc);
        push_copy(&mut fresh, term)?;
        let mut left = rounds;
        while left > 0 && !fresh.is_empty() {
            let mut newer = Vec::new(alloc);
            self.widen(relation, &mut found, &mut newer, &fresh)?;
            fresh = newer;
            left -= 1;
        }
        Ok(found)
    }

    /// The term that is preferred to a term, or else itself.
    fn preferred(&self, alloc: Global, term: &Term) -> Result<Vec<Term>, ExpandFault>
        ensures { Expands result (or_itself term.now (with_ordered_terms [] (next_terms self.now Relation.Preferred term.now))) }
    {
        let mut found = Vec::new(alloc);
        let mut newer = Vec::new(alloc);
        self.put_next_terms(Relation::Preferred, term, &mut found, &mut newer)?;
        if found.is_empty() {
            push_copy(&mut found, term)?;
        }
        Ok(found)
    }

    /// The terms that a term expands to, each once and in the order of their bytes: itself and the broader or narrower ones within `level`
    /// steps; itself and its synonyms, by any number of steps; or the preferred term, or itself where it has none. The level doesn't count
    /// for synonyms and preferred terms. `TooMany` where there are more than 1024.
    ///
    /// It looks once at each pair of each of these terms, at the cost of a logarithm for each, and stops at the 1025th term. A term that is
    /// found is put at its place among the others, of which there are at most 1024.
    pub fn expand(
        &self,
        relation: Relation,
        term: &Term,
        level: u32,
    ) -> Result<Vec<Term>, ExpandFault>
        ensures { Expands result (expansion self.now relation level term.now) }
    {
        let alloc = *self.pairs.allocator();
        match relation {
            Relation::Syn => self.reach(alloc, Relation::Syn, term, EXPANSION_LIMIT),
            Relation::Broader => self.reach(alloc, Relation::Broader, term, level),
            Relation::Narrower => self.reach(alloc, Relation::Narrower, term, level),
            Relation::Preferred => self.preferred(alloc, term),
        }
    }
}
