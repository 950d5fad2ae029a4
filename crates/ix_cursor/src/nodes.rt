//! The nodes of a cursor.

ghost use Rattle.std.specs.Prelude.{◌≡◌, ℕ, true, IfOk, OnOk, map, min, ◌-◌};
ghost use Rattle.q_tree.specs.Scores.{unless};
ghost use Rattle.ix_lists.specs.Seeking.{BoundsFrom};
ghost use Rattle.ix_cursor.specs.Passing.{node_passed};
ghost use Rattle.ix_cursor.specs.Nodes.{score_at, seen_score, may_at, SameScoresFrom, SameDocumentsFrom};

use crate::bounding::{earlier, later};
use crate::feeds::{NearFeed, SpanFeed, SumFeed, TermFeed, pass_operands, pass_section, pass_term};
use crate::scoring::{
    greatest_inside, if_above, score_near, score_phrases, score_sum, unless, weighted,
};
use crate::seeing::{see_operands, see_section, see_term};
use ct_base::{Memory, Pair};
use std::alloc::Global;

/// A part of a query over what it reads, and what that has in the document that was seen last.
#[derive(Drop)]
pub(crate) enum Node {
    Term(TermFeed),
    And(Box<Node>, Box<Node>),
    Or(Box<Node>, Box<Node>),
    Not(Box<Node>, Box<Node>),
    Minus(Box<Node>, Box<Node>),
    Weight(u8, Box<Node>),
    Above(u8, Box<Node>),
    Near(NearFeed),
    Within(Box<SpanFeed>, Box<Node>),
    Define(SumFeed),
    Done,
}

impl Node {
    /// Passes the documents before `to`, and bounds those in which the node may score. None where it may in no document; the node then
    /// drops its parts.
    #[cycle(skip)]
    pub(crate) fn skip(&mut self, alloc: Global, to: u32) -> Result<Option<u32>, Memory>
        ensures scores { OnOk result (SameScoresFrom to self.old self.new) }
        ensures documents { OnOk result (SameDocumentsFrom to self.old self.new) }
        ensures passed { OnOk result (node_passed to self.new ≡ true) }
        ensures bound { IfOk result (λ bound. BoundsFrom to (may_at self.new) bound) }
    {
        let bound = self.skip_parts(alloc, to)?;
        if bound.is_none() {
            *self = Node::Done;
        }
        Ok(bound)
    }

    /// Passes the documents before `to` in each part, and tells that bound.
    #[cycle(skip)]
    fn skip_parts(&mut self, alloc: Global, to: u32) -> Result<Option<u32>, Memory>
        ensures scores { OnOk result (SameScoresFrom to self.old self.new) }
        ensures documents { OnOk result (SameDocumentsFrom to self.old self.new) }
        ensures passed { OnOk result (node_passed to self.new ≡ true) }
        ensures bound { IfOk result (λ bound. BoundsFrom to (may_at self.new) bound) }
    {
        match self {
            Node::Term(term) => {
                let bound = pass_term(term, alloc, to)?;
                Ok(bound)
            }
            Node::And(a, b) => {
                let first = a.skip(alloc, to)?;
                let second = b.skip(alloc, to)?;
                Ok(later(first, second))
            }
            Node::Or(a, b) => {
                let first = a.skip(alloc, to)?;
                let second = b.skip(alloc, to)?;
                Ok(earlier(first, second))
            }
            Node::Not(a, b) => {
                b.skip(alloc, to)?;
                a.skip(alloc, to)
            }
            Node::Minus(a, b) => {
                b.skip(alloc, to)?;
                a.skip(alloc, to)
            }
            Node::Weight(_, a) => a.skip(alloc, to),
            Node::Above(_, a) => a.skip(alloc, to),
            Node::Near(near) => {
                let bound = pass_operands(&mut near.operands, alloc, to)?;
                Ok(bound)
            }
            Node::Within(section, a) => {
                let first = pass_section(section, alloc, to)?;
                let second = a.skip(alloc, to)?;
                Ok(later(first, second))
            }
            Node::Define(define) => {
                let bound = pass_term(&mut define.term, alloc, to)?;
                Ok(bound)
            }
            Node::Done => Ok(None),
        }
    }

    /// Takes up what each part has in a document, once: the positions of its slots, and the pairs of its sections with the scores over them.
    pub(crate) fn see(&mut self, alloc: Global, document: u32) -> Result<(), Memory>
        ensures seen { OnOk result ((lo hi : ℕ) → seen_score self.new lo hi ≡ score_at self.old document lo hi) }
        ensures keeps { OnOk result (SameScoresFrom 0 self.old self.new) }
    {
        match self {
            Node::Term(term) => see_term(term, alloc, document),
            Node::And(a, b) => {
                a.see(alloc, document)?;
                b.see(alloc, document)
            }
            Node::Or(a, b) => {
                a.see(alloc, document)?;
                b.see(alloc, document)
            }
            Node::Not(a, b) => {
                a.see(alloc, document)?;
                b.see(alloc, document)
            }
            Node::Minus(a, b) => {
                a.see(alloc, document)?;
                b.see(alloc, document)
            }
            Node::Weight(_, a) => a.see(alloc, document),
            Node::Above(_, a) => a.see(alloc, document),
            Node::Near(near) => see_operands(&mut near.operands, alloc, document),
            Node::Within(section, a) => {
                a.see(alloc, document)?;
                see_section(section, alloc, document)?;
                section.scores = a.scores_over(alloc, section.seen.as_slice())?;
                Ok(())
            }
            Node::Define(define) => see_term(&mut define.term, alloc, document),
            Node::Done => Ok(()),
        }
    }

    /// The score of the document that was seen last, within lo to hi. A part isn't scored where the parts before it settle the score.
    #[cycle(score)]
    pub(crate) fn score(&self, alloc: Global, lo: u32, hi: u32) -> Result<u32, Memory>
        ensures { IfOk result (λ s. s ≡ seen_score self.now lo hi) }
    {
        match self {
            Node::Term(term) => score_phrases(alloc, &term.phrases, lo, hi),
            Node::And(a, b) => {
                let first = a.score(alloc, lo, hi)?;
                b.least_score(alloc, first, lo, hi)
            }
            Node::Or(a, b) => {
                let first = a.score(alloc, lo, hi)?;
                let second = b.score(alloc, lo, hi)?;
                Ok(first.max(second))
            }
            Node::Not(a, b) => {
                let first = a.score(alloc, lo, hi)?;
                b.score_without(alloc, first, lo, hi)
            }
            Node::Minus(a, b) => {
                let first = a.score(alloc, lo, hi)?;
                b.score_less(alloc, first, lo, hi)
            }
            Node::Weight(tenths, a) => {
                let score = a.score(alloc, lo, hi)?;
                Ok(weighted(*tenths, score))
            }
            Node::Above(n, a) => {
                let score = a.score(alloc, lo, hi)?;
                Ok(if_above(*n, score))
            }
            Node::Near(near) => score_near(alloc, near, lo, hi),
            Node::Within(section, _) => {
                let pairs = section.seen.as_slice();
                Ok(greatest_inside(pairs, section.scores.as_slice(), lo, hi))
            }
            Node::Define(define) => score_sum(alloc, define, lo, hi),
            Node::Done => Ok(0),
        }
    }

    /// The lesser of a score and that of this node, which isn't scored where the first is 0.
    #[cycle(score)]
    fn least_score(&self, alloc: Global, first: u32, lo: u32, hi: u32) -> Result<u32, Memory>
        ensures { IfOk result (λ s. s ≡ min first (seen_score self.now lo hi)) }
    {
        if first == 0 {
            return Ok(0);
        }
        let second = self.score(alloc, lo, hi)?;
        Ok(first.min(second))
    }

    /// A score where that of this node is 0, and else 0. The node isn't scored where the first is 0.
    #[cycle(score)]
    fn score_without(&self, alloc: Global, first: u32, lo: u32, hi: u32) -> Result<u32, Memory>
        ensures { IfOk result (λ s. s ≡ unless first (seen_score self.now lo hi)) }
    {
        if first == 0 {
            return Ok(0);
        }
        let second = self.score(alloc, lo, hi)?;
        Ok(unless(first, second))
    }

    /// What a score is more than that of this node, at least 0. The node isn't scored where the first is 0.
    #[cycle(score)]
    fn score_less(&self, alloc: Global, first: u32, lo: u32, hi: u32) -> Result<u32, Memory>
        ensures { IfOk result (λ s. s ≡ first - seen_score self.now lo hi) }
    {
        if first == 0 {
            return Ok(0);
        }
        let second = self.score(alloc, lo, hi)?;
        Ok(first.saturating_sub(second))
    }

    /// The scores of the document that was seen last over each of some pairs.
    fn scores_over(&self, alloc: Global, pairs: &[Pair]) -> Result<Vec<u32>, Memory>
        ensures { IfOk result (λ v. v.items ≡ map (λ p. seen_score self.now p.first p.last) pairs.now) }
    {
        let mut scores = Vec::new(alloc);
        for pair in pairs {
            scores.push(self.score(alloc, pair.first, pair.last)?)?;
        }
        Ok(scores)
    }
}
