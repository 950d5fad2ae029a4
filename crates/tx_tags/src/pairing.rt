//! What tags enclose.

ghost use Rattle.std.specs.Prelude.{◌≡◌, ◌<◌, ℕ, [], IfOk, OnOk, get_or, length, map, reverse};
ghost use Rattle.std.specs.List.{All};
ghost use Rattle.tx_tags.specs.Pairs.{spans};
ghost use Rattle.tx_tags.specs.Stacks.{IsEmpty, Takes, behind_first, found_of};

use crate::tags::TagView;
use ct_base::{Listed, Memory};
use std::alloc::Global;

/// A part of a text, from the byte offset `start` up to, and without, `end`.
#[derive(Clone, Copy, Debug, PartialEq, Eq)]
pub struct Span {
    pub start: u32,
    pub end: u32,
}

/// Stretches of a text.
pub type Spans = Listed<Span>;

/// What the tags with one number enclose in a text that ends at `end`: the last one that opens comes first.
///
/// An opening tag is closed by the first later closing one between which and it as many open as close; without one it runs to the
/// end. The cost is linear in the number of tags.
pub fn spans(alloc: Global, tags: &[TagView], tag: usize, end: u32) -> Result<Vec<Span>, Memory>
    ensures { IfOk result (λ v. v.items ≡ spans tag end tags.now) }
{
    let mut pairing = Pairing::new(alloc);
    let mut at = tags.len();
    while at > 0 {
        at -= 1;
        let t = &tags[at];
        if t.tag == tag {
            pairing.take(t, end)?;
        }
    }
    Ok(pairing.spans)
}

/// What the tags with each number below `count` enclose in a text that ends at `end`. The cost is linear in the number of tags and
/// in `count`.
pub fn all_spans(
    alloc: Global,
    tags: &[TagView],
    count: usize,
    end: u32,
) -> Result<Vec<Spans>, Memory>
    ensures count { IfOk result (λ v. length v.items ≡ count) }
    ensures spans { IfOk result (λ v. (k : ℕ) → k < count → get_or v.items k [] ≡ spans k end tags.now) }
{
    let mut pairings = no_pairings(alloc, count)?;
    let mut at = tags.len();
    while at > 0 {
        at -= 1;
        let t = &tags[at];
        if t.tag < count {
            pairings[t.tag].take(t, end)?;
        }
    }
    found_spans(alloc, pairings)
}

/// The tags with one number, from the last one on.
#[derive(Drop)]
struct Pairing {
    spans: Vec<Span>,
    /// The starts of the closing tags that close none so far, the first one last.
    waiting: Vec<u32>,
}

impl Pairing {
    fn new(alloc: Global) -> Pairing
        ensures spans { result.spans.items ≡ [] }
        ensures waiting { result.waiting.items ≡ [] }
    {
        Pairing {
            spans: Vec::new(alloc),
            waiting: Vec::new(alloc),
        }
    }

    /// Takes the tag before those so far.
    fn take(&mut self, t: &TagView, end: u32) -> Result<(), Memory>
        ensures { OnOk result (Takes end t.now self.old self.new) }
    {
        if t.closing {
            self.waiting.push(t.start)?;
            return Ok(());
        }
        let stop = last_or(&mut self.waiting, end);
        self.spans.push(Span {
            start: t.end,
            end: stop,
        })?;
        Ok(())
    }
}

/// Takes the last number away, if there is one.
fn last_or(numbers: &mut Vec<u32>, other: u32) -> u32
    ensures value { result ≡ get_or (reverse numbers.old.items) 0 other }
    ensures rest { reverse numbers.new.items ≡ behind_first (reverse numbers.old.items) }
{
    match numbers.pop() {
        None => other,
        Some(number) => number,
    }
}

/// `count` pairings that have taken no tags.
fn no_pairings(alloc: Global, count: usize) -> Result<Vec<Pairing>, Memory>
    ensures count { IfOk result (λ v. length v.items ≡ count) }
    ensures empty { IfOk result (λ v. All IsEmpty v.items) }
{
    let mut pairings = Vec::new(alloc);
    for _ in 0..count {
        pairings.push(Pairing::new(alloc))?;
    }
    Ok(pairings)
}

/// What pairings found.
fn found_spans(alloc: Global, pairings: Vec<Pairing>) -> Result<Vec<Spans>, Memory>
    ensures { IfOk result (λ v. v.items ≡ map found_of pairings.items) }
{
    let mut all = Vec::new(alloc);
    for pairing in pairings {
        all.push(Listed::of(pairing.spans))?;
    }
    Ok(all)
}
