//! Inverting several texts at once.

ghost use Rattle.std.specs.Prelude.{◌≡◌, ◌++◌, ◌+◌, ◌<◌, ◌≤◌, ◌^◌, length, IfOk};
ghost use Rattle.std.specs.Thread.{IsSync};
ghost use Rattle.ix_invert.specs.Inverting.{all_postings, IsInversion};

use crate::pieces::Piece;
use crate::postings::{Posting, sort};
use ct_base::{Memory, Text};
use std::alloc::Global;
use std::thread::{Threads, join};

/// The postings of texts that follow one another.
fn read_all<P: Piece>(
    alloc: Global,
    piece: &P,
    first: u32,
    texts: &[Text],
) -> Result<Vec<Posting>, Memory>
    requires { first + length texts.now < 2 ^ 32 }
    ensures { IfOk result (λ v. v.items ≡ all_postings (P.postings piece.now) first texts.now) }
{
    let mut all = Vec::new(alloc);
    let mut number = first;
    let mut rest = texts;
    while let [text, later @ ..] = rest {
        let mut its = piece.entries(alloc, number, text.as_str())?;
        all.append(&mut its)?;
        number += 1;
        rest = later;
    }
    Ok(all)
}

/// The inversion of texts, by this thread alone.
fn invert_alone<P: Piece>(
    alloc: Global,
    piece: &P,
    first: u32,
    texts: &[Text],
) -> Result<Vec<Posting>, Memory>
    requires { first + length texts.now < 2 ^ 32 }
    ensures { IfOk result (λ v. IsInversion (all_postings (P.postings piece.now) first texts.now) v.items) }
{
    let mut all = read_all(alloc, piece, first, texts)?;
    sort(&mut all)?;
    Ok(all)
}

/// Two inversions as one. Its cost is the number of postings.
fn merge(
    left: Result<Vec<Posting>, Memory>,
    right: Result<Vec<Posting>, Memory>,
) -> Result<Vec<Posting>, Memory>
    ensures { IfOk result (λ v. (xs ys : _) → IfOk left (λ f. IsInversion xs f.items) → IfOk right (λ b. IsInversion ys b.items) → IsInversion (xs ++ ys) v.items) }
{
    let mut whole = left?;
    let mut rest = right?;
    whole.append(&mut rest)?;
    sort(&mut whole)?;
    Ok(whole)
}

/// How many of so many texts these threads of all threads take.
fn left_count(len: usize, left: u32, all: u32) -> usize
    requires { 1 ≤ all }
    ensures { result ≤ len }
{
    (len.saturating_mul(left as usize) / all as usize).min(len)
}

/// The inversion of these texts, whose documents have the numbers from the first one on. Up to so many threads read a run of
/// neighbours each; what gets no thread of its own is read by the caller. It holds the postings, and while it sorts them half as
/// many once more.
pub fn invert<R: Threads + Sync, P: Piece>(
    rt: &R,
    alloc: Global,
    piece: &P,
    first: u32,
    texts: &[Text],
    degree: u32,
) -> Result<Vec<Posting>, Memory>
    requires { first + length texts.now < 2 ^ 32 }
    ensures { IfOk result (λ v. IsInversion (all_postings (P.postings piece.now) first texts.now) v.items) }
{
    if degree <= 1 || texts.len() <= 1 {
        return invert_alone(alloc, piece, first, texts);
    }
    let right_degree = degree / 2;
    let left_degree = degree - right_degree;
    let (left, right) = texts.split_at(left_count(texts.len(), left_degree, degree));
    let next = first + left.len() as u32;
    let (left, right) = join(
        rt,
        move || -> Result<Vec<Posting>, Memory>
            requires { IsSync R.row × (first + length left.now < 2 ^ 32) }
            ensures { IfOk result (λ v. IsInversion (all_postings (P.postings piece.entry.now) first left.entry.now) v.items) }
        { invert(rt, alloc, piece, first, left, left_degree) },
        move || -> Result<Vec<Posting>, Memory>
            requires { IsSync R.row × (next + length right.now < 2 ^ 32) }
            ensures { IfOk result (λ v. IsInversion (all_postings (P.postings piece.entry.now) next right.entry.now) v.items) }
        { invert(rt, alloc, piece, next, right, right_degree) },
    );
    merge(left, right)
}
