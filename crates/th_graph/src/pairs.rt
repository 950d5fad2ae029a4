//! The pairs of a thesaurus.

ghost use Rattle.std.specs.Prelude.{◌≡◌, ◌&&◌, IfOk, bytes_eq};
ghost use Rattle.th_graph.specs.Pairs.{kind_number, term_pair, stated_pair, same_kind, same_term_pair};
ghost use Rattle.th_graph.specs.Relating.{prefers};

use crate::terms::Term;
use ct_base::Memory;
use q_tree::Relation;

/// How the two terms of a pair are related.
#[derive(Clone, Copy, Debug, PartialEq, Eq)]
pub enum PairKind {
    /// They are synonyms.
    Synonyms,
    /// The second is broader than the first.
    ToBroader,
    /// The second is preferred to the first.
    ToPreferred,
}

impl PairKind {
    /// The number of the kind, as a store has it.
    pub fn number(self) -> u8
        ensures { result ≡ kind_number self }
    {
        match self {
            PairKind::Synonyms => 1,
            PairKind::ToBroader => 2,
            PairKind::ToPreferred => 3,
        }
    }

    fn is(self, other: PairKind) -> bool
        ensures { result ≡ same_kind self other }
    {
        self.number() == other.number()
    }
}

/// Two terms, and how they are related.
#[derive(Debug, Drop)]
pub struct TermPair {
    pub kind: PairKind,
    pub first: Term,
    pub second: Term,
}

/// The pair which states that `b` is a synonym of `a`, broader or narrower than it, or preferred to it: its kind, and its terms in their
/// order, without a copy.
pub fn stated_pair<'a>(
    relation: Relation,
    a: &'a Term,
    b: &'a Term,
) -> (PairKind, &'a Term, &'a Term)
    ensures { term_pair result.0 result.1.now result.2.now ≡ stated_pair relation a.now b.now }
{
    match relation {
        Relation::Syn => {
            if b.is_less(a) {
                (PairKind::Synonyms, b, a)
            } else {
                (PairKind::Synonyms, a, b)
            }
        }
        Relation::Broader => (PairKind::ToBroader, a, b),
        Relation::Narrower => (PairKind::ToBroader, b, a),
        Relation::Preferred => (PairKind::ToPreferred, a, b),
    }
}

impl TermPair {
    /// The pair of copies of these terms.
    pub(crate) fn of(kind: PairKind, first: &Term, second: &Term) -> Result<TermPair, Memory>
        ensures { IfOk result (λ p. p ≡ term_pair kind first.now second.now) }
    {
        Ok(TermPair {
            kind,
            first: first.clone()?,
            second: second.clone()?,
        })
    }

    /// Whether it is the pair of this kind and these terms.
    pub(crate) fn is(&self, kind: PairKind, first: &Term, second: &Term) -> bool
        ensures { result ≡ same_term_pair (term_pair kind first.now second.now) self.now }
    {
        kind.is(self.kind) && first.is(&self.first) && second.is(&self.second)
    }

    /// Whether it is of the kind, and its first term is this one.
    pub(crate) fn begins(&self, kind: PairKind, term: &Term) -> bool
        ensures { result ≡ (same_kind kind self.now.kind && bytes_eq term.now self.now.first) }
    {
        kind.is(self.kind) && term.is(&self.first)
    }

    /// Whether it is of the kind, and its second term is this one.
    pub(crate) fn ends(&self, kind: PairKind, term: &Term) -> bool
        ensures { result ≡ (same_kind kind self.now.kind && bytes_eq term.now self.now.second) }
    {
        kind.is(self.kind) && term.is(&self.second)
    }

    /// Whether it says which term is preferred to this one.
    pub(crate) fn prefers(&self, term: &Term) -> bool
        ensures { result ≡ prefers term.now self.now }
    {
        self.begins(PairKind::ToPreferred, term)
    }
}
