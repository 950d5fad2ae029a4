//! Which reduced queries are sound.

ghost use Rattle.std.specs.Prelude.{◌≡◌, ◌∷◌, ◌&&◌, ◌≤◌, length, Option};
ghost use Rattle.std.specs.List.{list_all};
ghost use Rattle.q_tree.specs.Soundness.{is_key, slot_keys_rise, is_slot, takes_some, ends_well, is_phrase, is_term, is_nearness, is_operator, is_step, values, operators, is_sum, is_place, is_sound};
ghost use Rattle.q_tree.specs.ReducedQueries.{reduced_of};

use crate::flats::{Flat, Phrase, Phrases, Place, Slot, SumStep};
use ct_base::TOKEN_LIMIT;
use tx_chars::Key;

/// The greatest number of a field's stream.
const FIELD_LIMIT: u8 = 64;

/// How many operators a sum has at most.
const OPERATOR_LIMIT: usize = 8;

/// The greatest number in a sum.
const NUMBER_LIMIT: u16 = 1000;

/// How many operands a nearness has at most.
const OPERAND_LIMIT: usize = 16;

fn is_key(key: &Key) -> bool
    ensures { result ≡ is_key key.now }
{
    !key.as_slice().is_empty() && key.as_slice().len() <= TOKEN_LIMIT
}

fn are_keys(keys: &[Key]) -> bool
    ensures { result ≡ list_all is_key keys.now }
{
    keys.iter().all(|key| is_key(key))
}

/// Whether the key is less than the first of these.
fn is_below(key: &Key, later: &[Key]) -> bool
    ensures { (result && slot_keys_rise later.now) ≡ slot_keys_rise (key.now ∷ later.now) }
{
    match later {
        [] => true,
        [next, ..] => key.as_slice().cmp(next.as_slice()).is_lt(),
    }
}

/// Whether keys rise in the order of bytes.
fn rise(keys: &[Key]) -> bool
    ensures { result ≡ slot_keys_rise keys.now }
{
    let mut rest = keys;
    while let [first, later @ ..] = rest {
        if !is_below(first, later) {
            return false;
        }
        rest = later;
    }
    true
}

fn is_slot(slot: &Slot) -> bool
    ensures { result ≡ is_slot slot.now }
{
    match slot {
        Slot::Any => true,
        Slot::Takes { keys, patterns } => {
            let some = !keys.as_slice().is_empty() || !patterns.as_slice().is_empty();
            some && rise(keys.as_slice()) && are_keys(keys.as_slice())
        }
    }
}

fn are_slots(slots: &[Slot]) -> bool
    ensures { result ≡ list_all is_slot slots.now }
{
    slots.iter().all(|slot| is_slot(slot))
}

fn takes_some(slot: &Slot) -> bool
    ensures { result ≡ takes_some slot.now }
{
    match slot {
        Slot::Any => false,
        Slot::Takes { .. } => true,
    }
}

/// Whether there is a last slot, which isn't Any.
fn ends_well(slots: &[Slot]) -> bool
    ensures { result ≡ ends_well slots.now }
{
    let mut rest = slots;
    while let [slot, later @ ..] = rest {
        let [_, ..] = later else {
            return takes_some(slot);
        };
        rest = later;
    }
    false
}

fn is_phrase(slots: &[Slot]) -> bool
    ensures { result ≡ is_phrase slots.now }
{
    match slots {
        [] => false,
        [first, ..] => takes_some(first) && ends_well(slots) && are_slots(slots),
    }
}

fn are_phrases(phrases: &[Phrase]) -> bool
    ensures { result ≡ list_all is_phrase phrases.now }
{
    phrases.iter().all(|phrase| is_phrase(phrase.as_slice()))
}

fn is_term(phrases: &[Phrase]) -> bool
    ensures { result ≡ is_term phrases.now }
{
    !phrases.is_empty() && are_phrases(phrases)
}

fn are_terms(operands: &[Phrases]) -> bool
    ensures { result ≡ list_all is_term operands.now }
{
    operands.iter().all(|phrases| is_term(phrases.as_slice()))
}

fn is_nearness(operands: &[Phrases], span: u8) -> bool
    ensures { result ≡ is_nearness operands.now span }
{
    2 <= operands.len() && operands.len() <= OPERAND_LIMIT && are_terms(operands) && span <= 100
}

fn is_operator(step: SumStep) -> bool
    ensures { result ≡ is_operator step }
{
    match step {
        SumStep::Number(_) => false,
        SumStep::Discrete => false,
        SumStep::Occurrence => false,
        SumStep::Plus => true,
        SumStep::Minus => true,
        SumStep::Times => true,
    }
}

fn is_step(step: &SumStep) -> bool
    ensures { result ≡ is_step step.now }
{
    match step {
        SumStep::Number(number) => *number <= NUMBER_LIMIT,
        _ => true,
    }
}

fn are_steps(steps: &[SumStep]) -> bool
    ensures { result ≡ list_all is_step steps.now }
{
    steps.iter().all(|step| is_step(step))
}

/// How many values there are after these steps; None where an operator finds fewer than two.
fn values(steps: &[SumStep]) -> Option<usize>
    ensures { result ≡ values steps.now 0 }
{
    let mut count = 0;
    for step in steps {
        if !is_operator(*step) {
            count += 1;
        } else if count < 2 {
            return None;
        } else {
            count -= 1;
        }
    }
    Some(count)
}

fn operators(steps: &[SumStep]) -> usize
    ensures { result ≡ operators steps.now }
{
    let mut count = 0;
    for step in steps {
        if is_operator(*step) {
            count += 1;
        }
    }
    count
}

fn is_sum(steps: &[SumStep]) -> bool
    ensures { result ≡ is_sum steps.now }
{
    values(steps) == Some(1) && operators(steps) <= OPERATOR_LIMIT && are_steps(steps)
}

fn is_place(place: &Place) -> bool
    ensures { result ≡ is_place place.now }
{
    match place {
        Place::Field(stream) => 1 <= *stream && *stream <= FIELD_LIMIT,
        _ => true,
    }
}

impl Flat {
    /// Whether the query is sound, as reduction makes it: each term has a phrase, and each phrase begins and ends with a slot that
    /// isn't Any; keys rise, and all numbers are in their ranges. Its cost is linear in the size of the tree, and it goes as deep.
    pub fn is_sound(&self) -> bool
        ensures { result ≡ is_sound (reduced_of self.now) }
    {
        match self {
            Flat::Term(phrases) => is_term(phrases.as_slice()),
            Flat::And(a, b) => a.is_sound() && b.is_sound(),
            Flat::Or(a, b) => a.is_sound() && b.is_sound(),
            Flat::Not(a, b) => a.is_sound() && b.is_sound(),
            Flat::Minus(a, b) => a.is_sound() && b.is_sound(),
            Flat::Weight(tenths, a) => 1 <= *tenths && *tenths <= 100 && a.is_sound(),
            Flat::Above(number, a) => *number <= 100 && a.is_sound(),
            Flat::Near { operands, span, .. } => is_nearness(operands.as_slice(), *span),
            Flat::Within(place, a) => is_place(place) && a.is_sound(),
            Flat::Define(phrases, sum) => is_term(phrases.as_slice()) && is_sum(sum.as_slice()),
        }
    }
}
