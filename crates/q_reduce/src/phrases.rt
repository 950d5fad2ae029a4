//! The phrases of leaves and operands.

ghost use Rattle.std.specs.Prelude.{◌≡◌, ◌++◌, true, drop, length, take, ◌≤◌};
ghost use Rattle.std.specs.List.{list_all, flat_map};
ghost use Rattle.q_tree.specs.Limits.{word_keeps_limit, leaf_keeps_limits, leaves_keep_limits};
ghost use Rattle.q_reduce.specs.Faults.{place_faults, leaf_faults, leaves_faults, operands_faults};
ghost use Rattle.q_reduce.specs.Reducing.{end_dropped, front_dropped, kept_operands, leaf_phrases, operand_phrases, phrases_of_slots, place_slots, trimmed};
ghost use Rattle.q_reduce.specs.Results.{Answers, PutsLeaf, PutsMore, context_of};
ghost use Rattle.q_tree.specs.Soundness.{takes_some};
ghost use Rattle.std.specs.Prelude.{IfOk, OnOk};

use crate::equivs::joined_slot;
use crate::faults::ReduceFault;
use crate::reducing::ReduceCtx;
use crate::thesauri::put_operator;
use crate::words::put_word;
use ct_base::{Listed, Memory};
use q_tree::{Leaf, Phrase, Phrases, Slot, Word, WordSlot};
use std::alloc::Global;

/// Puts the slots of the words that stand at one place of a phrase.
fn put_place(
    alloc: Global,
    ctx: &ReduceCtx<'_>,
    slots: &mut Vec<Slot>,
    words: &[Word],
) -> Result<(), ReduceFault>
    requires { list_all word_keeps_limit words.now ≡ true }
    ensures { PutsMore result (place_faults (context_of ctx.now) words.now) slots.old.items slots.new.items (place_slots (context_of ctx.now) words.now) }
{
    if let [word] = words {
        put_word(alloc, ctx, slots, word)?;
    } else {
        slots.push(joined_slot(alloc, ctx, words)?)?;
    }
    Ok(())
}

/// The slots of all places.
fn slots(alloc: Global, ctx: &ReduceCtx<'_>, places: &[WordSlot]) -> Result<Vec<Slot>, ReduceFault>
    requires { list_all (λ place. list_all word_keeps_limit place) places.now ≡ true }
    ensures { Answers result (flat_map (place_faults (context_of ctx.now)) places.now) (λ v. v.items ≡ flat_map (place_slots (context_of ctx.now)) places.now) }
{
    let mut slots = Vec::new(alloc);
    let mut rest = places;
    while let [words, later @ ..] = rest {
        put_place(alloc, ctx, &mut slots, words.as_slice())?;
        rest = later;
    }
    Ok(slots)
}

fn takes_some(slot: &Slot) -> bool
    ensures { result ≡ takes_some slot.now }
{
    match slot {
        Slot::Any => false,
        Slot::Takes { .. } => true,
    }
}

/// How many slots at the front take any word.
fn leading(slots: &[Slot]) -> usize
    ensures within { result ≤ length slots.now }
    ensures drop { drop result slots.now ≡ front_dropped slots.now }
{
    let mut count = 0;
    let mut rest = slots;
    while let [slot, later @ ..] = rest {
        if takes_some(slot) {
            break;
        }
        count += 1;
        rest = later;
    }
    count
}

/// How many slots there are up to the last that isn't Any.
fn end(slots: &[Slot]) -> usize
    ensures { take result slots.now ≡ end_dropped slots.now }
{
    let mut end = 0;
    let mut place = 0;
    for slot in slots {
        place += 1;
        if takes_some(slot) {
            end = place;
        }
    }
    end
}

/// The slots without those at the front and at the end that take any word.
fn trimmed(slots: Vec<Slot>) -> Result<Vec<Slot>, Memory>
    ensures { IfOk result (λ v. v.items ≡ trimmed slots.items) }
{
    let mut slots = slots;
    let leading = leading(slots.as_slice());
    let mut kept = slots.split_off(leading)?;
    let end = end(kept.as_slice());
    kept.truncate(end);
    Ok(kept)
}

/// Puts the phrases of a leaf: that of its words, if it has one, or those of the terms that an operator of a thesaurus gives.
fn put_leaf(
    alloc: Global,
    ctx: &ReduceCtx<'_>,
    phrases: &mut Vec<Phrase>,
    leaf: &Leaf,
) -> Result<(), ReduceFault>
    requires { leaf_keeps_limits leaf.now ≡ true }
    ensures { PutsLeaf result (context_of ctx.now) leaf.now phrases.old.items phrases.new.items }
{
    match leaf {
        Leaf::Phrase(places) => {
            let slots = slots(alloc, ctx, places.as_slice())?;
            put_trimmed(phrases, slots)?;
            Ok(())
        }
        Leaf::Thes {
            relation,
            words,
            level,
            thesaurus,
        } => put_operator(
            alloc,
            ctx,
            phrases,
            *relation,
            words.as_slice(),
            *level,
            thesaurus,
        ),
    }
}

/// Puts the phrase of some slots, without those at the front and at the end that take any word, unless none is left.
pub(crate) fn put_trimmed(phrases: &mut Vec<Phrase>, slots: Vec<Slot>) -> Result<(), Memory>
    ensures { OnOk result (phrases.new.items ≡ phrases.old.items ++ phrases_of_slots (trimmed slots.items)) }
{
    let kept = trimmed(slots)?;
    put_phrase(phrases, kept)
}

/// Puts a phrase, unless it has no slots.
fn put_phrase(phrases: &mut Vec<Phrase>, slots: Vec<Slot>) -> Result<(), Memory>
    ensures { OnOk result (phrases.new.items ≡ phrases.old.items ++ phrases_of_slots slots.items) }
{
    if !slots.is_empty() {
        phrases.push(Listed::of(slots))?;
    }
    Ok(())
}

/// The phrases of a leaf.
pub(crate) fn leaf_phrases(
    alloc: Global,
    ctx: &ReduceCtx<'_>,
    leaf: &Leaf,
) -> Result<Vec<Phrase>, ReduceFault>
    requires { leaf_keeps_limits leaf.now ≡ true }
    ensures { Answers result (leaf_faults (context_of ctx.now) leaf.now) (λ v. v.items ≡ leaf_phrases (context_of ctx.now) leaf.now) }
{
    let mut phrases = Vec::new(alloc);
    put_leaf(alloc, ctx, &mut phrases, leaf)?;
    Ok(phrases)
}

/// The phrases of an operand.
pub(crate) fn operand_phrases(
    alloc: Global,
    ctx: &ReduceCtx<'_>,
    leaves: &[Leaf],
) -> Result<Vec<Phrase>, ReduceFault>
    requires { leaves_keep_limits leaves.now ≡ true }
    ensures { Answers result (leaves_faults (context_of ctx.now) leaves.now) (λ v. v.items ≡ operand_phrases (context_of ctx.now) leaves.now) }
{
    let mut phrases = Vec::new(alloc);
    let mut rest = leaves;
    while let [leaf, later @ ..] = rest {
        put_leaf(alloc, ctx, &mut phrases, leaf)?;
        rest = later;
    }
    Ok(phrases)
}

/// The phrases of each operand that has some.
pub(crate) fn operands(
    alloc: Global,
    ctx: &ReduceCtx<'_>,
    operands: &[Listed<Leaf>],
) -> Result<Vec<Phrases>, ReduceFault>
    requires { list_all leaves_keep_limits operands.now ≡ true }
    ensures { Answers result (operands_faults (context_of ctx.now) operands.now) (λ v. v.items ≡ kept_operands (context_of ctx.now) operands.now) }
{
    let mut found = Vec::new(alloc);
    let mut rest = operands;
    while let [leaves, later @ ..] = rest {
        let phrases = operand_phrases(alloc, ctx, leaves.as_slice())?;
        if !phrases.is_empty() {
            found.push(Listed::of(phrases))?;
        }
        rest = later;
    }
    Ok(found)
}
