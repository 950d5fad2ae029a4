//! The keys by which a stored query is looked for.

ghost use Rattle.std.specs.Prelude.{◌≡◌, ◌++◌, [], false, true, IfOk, Some, is_some};
ghost use Rattle.std.specs.Option.{option_map};
ghost use Rattle.q_tree.specs.Soundness.{is_sound};
ghost use Rattle.q_tree.specs.ReducedQueries.{reduced_of};
ghost use Rattle.q_stored.specs.Anchoring.{anchors, are_anchor_keys, either, operand_anchors, phrase_anchors, slot_anchors, term_anchors};

use ct_base::Memory;
use q_tree::{Flat, Phrase, Phrases, Slot};
use std::alloc::Global;
use std::marker::Model;
use tx_chars::Key;

/// The keys by which a query is looked for: any of these, of which one may stand twice; or it is looked for everywhere. Contracts see
/// them as an option of lists, where None is everywhere.
#[derive(Drop)]
pub struct Anchors {
    keys: Option<Vec<Key>>,
}

impl Model for Anchors {
    ghost use Rattle.q_stored.specs.Anchoring.{AnchorKeys};
    ghost use Rattle.q_stored.specs.AnchorViews.{keys_view};

    ghost Value = { AnchorKeys };

    ghost view = { λ a. keys_view a.keys };
}

impl Anchors {
    /// The keys, each of 1 to 255 bytes; None where the query is looked for everywhere.
    pub fn keys(&self) -> Option<&[Key]>
        ensures { option_map (λ keys. keys.now) result ≡ self.now }
    {
        match &self.keys {
            Some(keys) => Some(keys.as_slice()),
            None => None,
        }
    }

    /// Whether the query is looked for by keys.
    fn has_keys(&self) -> bool
        ensures { result ≡ is_some self.now }
    {
        self.keys.is_some()
    }
}

/// No key.
fn no_anchors(alloc: Global) -> Anchors
    ensures { result ≡ Some [] }
{
    Anchors {
        keys: Some(Vec::new(alloc)),
    }
}

/// Keys with more behind them.
fn with_keys(keys: Vec<Key>, more: Vec<Key>) -> Result<Vec<Key>, Memory>
    ensures { IfOk result (λ all. all.items ≡ keys.items ++ more.items) }
{
    let mut all = keys;
    for key in more {
        all.push(key)?;
    }
    Ok(all)
}

/// The anchors of what needs one of two.
fn either(a: Anchors, b: Anchors) -> Result<Anchors, Memory>
    ensures { IfOk result (λ all. all ≡ either a b) }
{
    match (a.keys, b.keys) {
        (Some(first), Some(second)) => Ok(Anchors {
            keys: Some(with_keys(first, second)?),
        }),
        _ => Ok(Anchors { keys: None }),
    }
}

/// Copies of keys.
fn key_copies(alloc: Global, keys: &[Key]) -> Result<Vec<Key>, Memory>
    ensures { IfOk result (λ copies. copies.items ≡ keys.now) }
{
    let mut copies = Vec::new(alloc);
    let mut rest = keys;
    while let [key, later @ ..] = rest {
        copies.push(Key::of(Vec::from_slice(alloc, key.as_slice())?))?;
        rest = later;
    }
    Ok(copies)
}

/// The anchors of a slot that isn't Any.
fn slot_anchors(alloc: Global, keys: &[Key], has_pattern: bool) -> Result<Anchors, Memory>
    ensures { IfOk result (λ found. found ≡ slot_anchors keys.now has_pattern) }
{
    if has_pattern {
        return Ok(Anchors { keys: None });
    }
    Ok(Anchors {
        keys: Some(key_copies(alloc, keys)?),
    })
}

/// The anchors of a phrase: of its first slot that isn't Any.
fn phrase_anchors(alloc: Global, slots: &[Slot]) -> Result<Anchors, Memory>
    ensures { IfOk result (λ found. found ≡ phrase_anchors slots.now) }
{
    let mut rest = slots;
    while let [slot, later @ ..] = rest {
        match slot {
            Slot::Any => rest = later,
            Slot::Takes { keys, patterns } => {
                return slot_anchors(alloc, keys.as_slice(), !patterns.as_slice().is_empty());
            }
        }
    }
    Ok(no_anchors(alloc))
}

/// The anchors of a term: those of its phrases.
fn term_anchors(alloc: Global, phrases: &[Phrase]) -> Result<Anchors, Memory>
    ensures { IfOk result (λ found. found ≡ term_anchors phrases.now) }
{
    let mut all = no_anchors(alloc);
    let mut rest = phrases;
    while let [phrase, later @ ..] = rest {
        all = either(all, phrase_anchors(alloc, phrase.as_slice())?)?;
        rest = later;
    }
    Ok(all)
}

/// The anchors of the first operand of a nearness.
fn operand_anchors(alloc: Global, operands: &[Phrases]) -> Result<Anchors, Memory>
    ensures { IfOk result (λ found. found ≡ operand_anchors operands.now) }
{
    match operands {
        [] => Ok(no_anchors(alloc)),
        [first, ..] => term_anchors(alloc, first.as_slice()),
    }
}

/// The keys by which this query is looked for: where it has a score above 0 on a document, one of them is the key of a word there. Of a
/// phrase they are those of its first slot that isn't Any, of AND those of one side, of OR those of both. Where such a slot has a pattern
/// the query is looked for everywhere, unless the other side of an AND has keys.
///
/// Its cost is at most the size of the query times its depth, and it goes as deep.
pub fn anchors_of(alloc: Global, query: &Flat) -> Result<Anchors, Memory>
    requires sound { is_sound (reduced_of query.now) ≡ true }
    ensures anchors { IfOk result (λ found. found ≡ anchors (reduced_of query.now)) }
    ensures keys { IfOk result (λ found. are_anchor_keys found ≡ true) }
{
    part_anchors(alloc, query)
}

/// The anchors of a query or a part of one.
fn part_anchors(alloc: Global, query: &Flat) -> Result<Anchors, Memory>
    ensures { IfOk result (λ found. found ≡ anchors (reduced_of query.now)) }
{
    match query {
        Flat::Term(phrases) => term_anchors(alloc, phrases.as_slice()),
        Flat::Define(phrases, _) => term_anchors(alloc, phrases.as_slice()),
        Flat::And(a, b) => {
            let first = part_anchors(alloc, a)?;
            if first.has_keys() {
                return Ok(first);
            }
            part_anchors(alloc, b)
        }
        Flat::Or(a, b) => {
            let first = part_anchors(alloc, a)?;
            let second = part_anchors(alloc, b)?;
            either(first, second)
        }
        Flat::Not(a, _) => part_anchors(alloc, a),
        Flat::Minus(a, _) => part_anchors(alloc, a),
        Flat::Weight(_, a) => part_anchors(alloc, a),
        Flat::Above(_, a) => part_anchors(alloc, a),
        Flat::Within(_, a) => part_anchors(alloc, a),
        Flat::Near { operands, .. } => operand_anchors(alloc, operands.as_slice()),
    }
}
