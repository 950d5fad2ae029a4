//! Scores over what the parts of a query have in the document that was seen last.
//!
//! A score within lo to hi finds the range by searches in the lists of positions and goes over no position outside of it, so a short
//! range of WITHIN costs little in a long document too. The score of a part of WITHIN over a pair of its section doesn't depend on the
//! range around the WITHIN: it is computed once for each pair, when a document is seen, so that the cost of WITHIN in WITHIN is a product
//! of two numbers of pairs at most, however deep they nest.

ghost use Rattle.std.specs.Prelude.{◌≡◌, ◌++◌, IfOk, OnOk, map, min, length};
ghost use Rattle.ix_spans.specs.InOrder.{StartsInOrder, EachInOrder, SamePairs, EachSame};
ghost use Rattle.ix_spans.specs.Occurrences.{distinct, has_pair, same_pair, term_score, phrase_pairs, term_pairs, phrase_score};
ghost use Rattle.ix_spans.specs.Views.{pairs_view};
ghost use Rattle.q_tree.specs.Scores.{define_score, unless, weighted, if_above, if_near, near_score};
ghost use Rattle.ix_cursor.specs.Distinct.{with_new_pair};
ghost use Rattle.ix_cursor.specs.Seen.{score_inside, greatest_inside, seen_phrase, seen_phrases, seen_operands};

use crate::feeds::{NearFeed, PhraseFeed, SumFeed, TermFeed};
use ct_base::{Memory, Pair};
use ix_spans::{in_order, inside, near_holds, phrase_pairs, phrase_starts};
use std::alloc::Global;

/// The first score, where the second is 0.
pub(crate) fn unless(a: u32, b: u32) -> u32
    ensures { result ≡ unless a b }
{
    if b == 0 { a } else { 0 }
}

/// A weight in tenths, rounded up, at most 100.
pub(crate) fn weighted(tenths: u8, score: u32) -> u32
    ensures { result ≡ weighted tenths score }
{
    let product = score as u64 * tenths as u64;
    ((product + 9) / 10).min(100) as u32
}

/// The score, where it is above a number.
pub(crate) fn if_above(n: u8, score: u32) -> u32
    ensures { result ≡ if_above n score }
{
    if score > n as u32 { score } else { 0 }
}

/// 100 where one occurrence of each operand can be chosen so.
fn if_near(holds: bool) -> u32
    ensures { result ≡ if_near holds }
{
    if holds { 100 } else { 0 }
}

/// A score over a pair, where the pair lies within lo to hi, and else 0.
fn score_inside(pair: Pair, score: u32, lo: u32, hi: u32) -> u32
    ensures { result ≡ score_inside lo hi pair score }
{
    if inside(pair, lo, hi) { score } else { 0 }
}

/// The greatest of the scores over the pairs that lie within lo to hi. The cost is the number of pairs.
pub(crate) fn greatest_inside(pairs: &[Pair], scores: &[u32], lo: u32, hi: u32) -> u32
    ensures { result ≡ greatest_inside lo hi pairs.now scores.now }
{
    let mut greatest = 0;
    let mut rest = pairs;
    let mut scores = scores;
    while let [pair, more @ ..] = rest {
        let [score, others @ ..] = scores else {
            return greatest;
        };
        greatest = score_inside(*pair, *score, lo, hi).max(greatest);
        rest = more;
        scores = others;
    }
    greatest
}

/// How often a phrase occurs within lo to hi, at most 100.
///
/// Of k slots, of whose lists the shortest has n positions within lo to hi and the longest m in all, it costs k, and n times k times
/// the logarithm of m. It takes memory for the starts.
fn count_phrase(alloc: Global, phrase: &PhraseFeed, lo: u32, hi: u32) -> Result<u32, Memory>
    ensures { IfOk result (λ k. k ≡ phrase_score (phrase_pairs (seen_phrase phrase.now) lo hi)) }
{
    let mut starts = Vec::new(alloc);
    phrase_starts(phrase.seen.as_slice(), lo, hi, &mut starts)?;
    Ok(starts.len().min(100) as u32)
}

/// The score of a term within lo to hi: that of the phrase which occurs most often. The cost is that of `count_phrase`, for each phrase.
pub(crate) fn score_phrases(
    alloc: Global,
    phrases: &[PhraseFeed],
    lo: u32,
    hi: u32,
) -> Result<u32, Memory>
    ensures { IfOk result (λ k. k ≡ term_score (seen_phrases phrases.now) lo hi) }
{
    let mut best = 0;
    for phrase in phrases {
        best = count_phrase(alloc, phrase, lo, hi)?.max(best);
    }
    Ok(best)
}

/// Puts the occurrences of a phrase within lo to hi behind what is there. The cost is that of `count_phrase`.
fn put_pairs(phrase: &PhraseFeed, lo: u32, hi: u32, out: &mut Vec<Pair>) -> Result<(), Memory>
    ensures { OnOk result (out.new.items ≡ out.old.items ++ phrase_pairs (seen_phrase phrase.now) lo hi) }
{
    phrase_pairs(phrase.seen.as_slice(), lo, hi, out)
}

/// The occurrences of the phrases of a term within lo to hi, phrase by phrase. One that several phrases have stands several times.
fn pairs_of_phrases(
    alloc: Global,
    phrases: &[PhraseFeed],
    lo: u32,
    hi: u32,
) -> Result<Vec<Pair>, Memory>
    ensures { IfOk result (λ v. v.items ≡ term_pairs (seen_phrases phrases.now) lo hi) }
{
    let mut out = Vec::new(alloc);
    for phrase in phrases {
        put_pairs(phrase, lo, hi, &mut out)?;
    }
    Ok(out)
}

/// The occurrences of a term within lo to hi, in the order of their starts.
///
/// The cost is that of `count_phrase` for each phrase, and n times the logarithm of n for n occurrences; of a term of one phrase it is n,
/// since they are in order.
fn pairs_of_term(
    alloc: Global,
    phrases: &[PhraseFeed],
    lo: u32,
    hi: u32,
) -> Result<Vec<Pair>, Memory>
    ensures order { IfOk result (λ v. StartsInOrder v.items) }
    ensures same { IfOk result (λ v. SamePairs v.items (term_pairs (seen_phrases phrases.now) lo hi)) }
{
    let pairs = pairs_of_phrases(alloc, phrases, lo, hi)?;
    in_order(pairs)
}

/// The occurrences of each operand within lo to hi, each operand's in the order of their starts. The cost is that of `pairs_of_term`, for
/// each operand.
fn pairs_of_operands(
    alloc: Global,
    operands: &[TermFeed],
    lo: u32,
    hi: u32,
) -> Result<Vec<Vec<Pair>>, Memory>
    ensures order { IfOk result (λ v. EachInOrder (pairs_view v.items)) }
    ensures same { IfOk result (λ v. EachSame (pairs_view v.items) (map (λ o. term_pairs o lo hi) (seen_operands operands.now))) }
{
    let mut out = Vec::new(alloc);
    for operand in operands {
        out.push(pairs_of_term(alloc, &operand.phrases, lo, hi)?)?;
    }
    Ok(out)
}

/// The score of operands that are to stand near one another, within lo to hi.
///
/// It takes memory for the occurrences of each operand within lo to hi. The cost is that of `pairs_of_operands`, and over these
/// occurrences that of `near_holds`.
pub(crate) fn score_near(alloc: Global, near: &NearFeed, lo: u32, hi: u32) -> Result<u32, Memory>
    ensures { IfOk result (λ s. s ≡ near_score (seen_operands near.now.operands.items) near.now.span near.now.ordered lo hi) }
{
    let pairs = pairs_of_operands(alloc, &near.operands, lo, hi)?;
    Ok(if_near(near_holds(&pairs, near.span as u32, near.ordered)))
}

/// Puts a pair that isn't among some.
fn put_new(found: &mut Vec<Pair>, pair: Pair) -> Result<(), Memory>
    ensures { OnOk result (found.new.items ≡ with_new_pair pair found.old.items) }
{
    if !has_pair(found.as_slice(), pair) {
        found.push(pair)?;
    }
    Ok(())
}

/// Whether two pairs are the same.
fn same_pair(a: Pair, b: Pair) -> bool
    ensures { result ≡ same_pair a b }
{
    a.first == b.first && a.last == b.last
}

/// Whether a pair is among some.
fn has_pair(pairs: &[Pair], pair: Pair) -> bool
    ensures { result ≡ has_pair pairs.now pair }
{
    let mut rest = pairs;
    while let [first, later @ ..] = rest {
        if same_pair(*first, pair) {
            return true;
        }
        rest = later;
    }
    false
}

/// How many pairs there are, where equal ones count once, and at most 100. Its cost is a hundred times their number at most.
fn count_distinct(alloc: Global, pairs: &[Pair]) -> Result<u32, Memory>
    ensures { IfOk result (λ k. k ≡ min 100 (length (distinct pairs.now))) }
{
    let mut found = Vec::new(alloc);
    let mut left = pairs.len();
    while left > 0 {
        if found.len() >= 100 {
            return Ok(100);
        }
        left -= 1;
        put_new(&mut found, pairs[left])?;
    }
    Ok(found.len().min(100) as u32)
}

/// The score of a term by a sum over how often it occurs within lo to hi. The cost is that of its occurrences, and a hundred times their
/// number at most.
pub(crate) fn score_sum(alloc: Global, define: &SumFeed, lo: u32, hi: u32) -> Result<u32, Memory>
    ensures { IfOk result (λ s. s ≡ define_score (seen_phrases define.now.term.phrases.items) define.now.sum lo hi) }
{
    let pairs = pairs_of_phrases(alloc, &define.term.phrases, lo, hi)?;
    let count = count_distinct(alloc, &pairs)?;
    define.sum.score(alloc, count)
}
