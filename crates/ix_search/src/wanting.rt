//! The slots and sections whose rows a query reads, each once.

ghost use Rattle.std.specs.Prelude.{◌≡◌, IfOk, OnOk};
ghost use Rattle.ct_base.specs.Names.{IsName};
ghost use Rattle.q_tree.specs.Slots.{has_key};
ghost use Rattle.q_tree.specs.ReducedQueries.{reduced_of};
ghost use Rattle.q_tree.specs.declared.flats.Slot.TheVariants.{Takes};
ghost use Rattle.ix_search.specs.Wanting.{is_wanted, with_slot, with_phrase, with_term, with_operands, with_slots, with_name, with_names};

use ct_base::{Listed, Memory, Name};
use ix_slots::{InStream, SlotList};
use q_tree::{Flat, Pattern, PatternBit, Phrase, Phrases, Place, Slot};
use std::alloc::Global;
use tx_chars::Key;

/// A slot whose rows are read in a stream.
#[derive(Drop)]
pub(crate) struct Wanted {
    pub(crate) stream: u8,
    pub(crate) slot: Slot,
}

impl InStream for Wanted {
    ghost at = { λ wanted. record { stream = wanted.stream; slot = wanted.slot } };

    fn stream(&self) -> u8 {
        self.stream
    }

    fn slot(&self) -> &Slot {
        &self.slot
    }
}

/// Whether a slot is among those wanted in a stream.
fn is_wanted(
    alloc: Global,
    wanted: &SlotList<Wanted>,
    stream: u8,
    slot: &Slot,
) -> Result<bool, Memory>
    ensures { IfOk result (λ is. is ≡ is_wanted wanted.now stream slot.now) }
{
    let found = wanted.find(alloc, stream, slot)?;
    Ok(found.is_some())
}

/// The same key once more.
fn copy_key(alloc: Global, key: &Key) -> Result<Key, Memory>
    ensures { IfOk result (λ copy. copy ≡ key.now) }
{
    let mut bytes = Vec::new(alloc);
    bytes.extend_from_slice(key.as_slice())?;
    Ok(Key::of(bytes))
}

/// The same keys once more.
fn copy_keys(alloc: Global, keys: &[Key]) -> Result<Vec<Key>, Memory>
    ensures { IfOk result (λ copy. copy.items ≡ keys.now) }
{
    let mut copy = Vec::new(alloc);
    for key in keys {
        copy.push(copy_key(alloc, key)?)?;
    }
    Ok(copy)
}

/// The same piece of a pattern once more.
fn copy_bit(bit: &PatternBit) -> Result<PatternBit, Memory>
    ensures { IfOk result (λ copy. copy ≡ bit.now) }
{
    match bit {
        PatternBit::Chars(text) => Ok(PatternBit::Chars(text.clone()?)),
        PatternBit::One => Ok(PatternBit::One),
        PatternBit::Many => Ok(PatternBit::Many),
    }
}

/// The same pattern once more.
fn copy_pattern(alloc: Global, pattern: &[PatternBit]) -> Result<Pattern, Memory>
    ensures { IfOk result (λ copy. copy ≡ pattern.now) }
{
    let mut copy = Vec::new(alloc);
    for bit in pattern {
        copy.push(copy_bit(bit)?)?;
    }
    Ok(Listed::of(copy))
}

/// The same patterns once more.
fn copy_patterns(alloc: Global, patterns: &[Pattern]) -> Result<Vec<Pattern>, Memory>
    ensures { IfOk result (λ copy. copy.items ≡ patterns.now) }
{
    let mut copy = Vec::new(alloc);
    for pattern in patterns {
        copy.push(copy_pattern(alloc, pattern.as_slice())?)?;
    }
    Ok(copy)
}

/// Wants a slot in a stream, unless it is wanted there. It wants none that takes any word.
fn want_slot(
    alloc: Global,
    stream: u8,
    slot: &Slot,
    wanted: SlotList<Wanted>,
) -> Result<SlotList<Wanted>, Memory>
    ensures { IfOk result (λ all. all ≡ with_slot stream slot.now wanted) }
{
    let Slot::Takes { keys, patterns } = slot else {
        return Ok(wanted);
    };
    if is_wanted(alloc, &wanted, stream, slot)? {
        return Ok(wanted);
    }
    let slot = Slot::Takes {
        keys: Listed::of(copy_keys(alloc, keys.as_slice())?),
        patterns: Listed::of(copy_patterns(alloc, patterns.as_slice())?),
    };
    wanted.with(alloc, Wanted { stream, slot })
}

fn want_phrase(
    alloc: Global,
    stream: u8,
    phrase: &[Slot],
    mut wanted: SlotList<Wanted>,
) -> Result<SlotList<Wanted>, Memory>
    ensures { IfOk result (λ all. all ≡ with_phrase stream phrase.now wanted) }
{
    for slot in phrase {
        wanted = want_slot(alloc, stream, slot, wanted)?;
    }
    Ok(wanted)
}

fn want_term(
    alloc: Global,
    stream: u8,
    phrases: &[Phrase],
    mut wanted: SlotList<Wanted>,
) -> Result<SlotList<Wanted>, Memory>
    ensures { IfOk result (λ all. all ≡ with_term stream phrases.now wanted) }
{
    for phrase in phrases {
        wanted = want_phrase(alloc, stream, phrase.as_slice(), wanted)?;
    }
    Ok(wanted)
}

fn want_operands(
    alloc: Global,
    stream: u8,
    operands: &[Phrases],
    mut wanted: SlotList<Wanted>,
) -> Result<SlotList<Wanted>, Memory>
    ensures { IfOk result (λ all. all ≡ with_operands stream operands.now wanted) }
{
    for phrases in operands {
        wanted = want_term(alloc, stream, phrases.as_slice(), wanted)?;
    }
    Ok(wanted)
}

/// Wants the slots of a query, each in its stream and once. Its cost is, for each slot, its length and the logarithm of the number of those
/// wanted.
pub(crate) fn want_slots(
    alloc: Global,
    flat: &Flat,
    stream: u8,
    wanted: SlotList<Wanted>,
) -> Result<SlotList<Wanted>, Memory>
    ensures { IfOk result (λ all. all ≡ with_slots (reduced_of flat.now) stream wanted) }
{
    match flat {
        Flat::Term(phrases) => want_term(alloc, stream, phrases.as_slice(), wanted),
        Flat::And(a, b) => {
            let wanted = want_slots(alloc, a, stream, wanted)?;
            want_slots(alloc, b, stream, wanted)
        }
        Flat::Or(a, b) => {
            let wanted = want_slots(alloc, a, stream, wanted)?;
            want_slots(alloc, b, stream, wanted)
        }
        Flat::Not(a, b) => {
            let wanted = want_slots(alloc, a, stream, wanted)?;
            want_slots(alloc, b, stream, wanted)
        }
        Flat::Minus(a, b) => {
            let wanted = want_slots(alloc, a, stream, wanted)?;
            want_slots(alloc, b, stream, wanted)
        }
        Flat::Weight(_, a) => want_slots(alloc, a, stream, wanted),
        Flat::Above(_, a) => want_slots(alloc, a, stream, wanted),
        Flat::Near { operands, .. } => want_operands(alloc, stream, operands.as_slice(), wanted),
        Flat::Within(Place::Field(field), a) => want_slots(alloc, a, *field, wanted),
        Flat::Within(Place::Zone(_), a) => want_slots(alloc, a, stream, wanted),
        Flat::Within(Place::Sentence, a) => want_slots(alloc, a, stream, wanted),
        Flat::Within(Place::Paragraph, a) => want_slots(alloc, a, stream, wanted),
        Flat::Define(phrases, _) => want_term(alloc, stream, phrases.as_slice(), wanted),
    }
}

/// Whether a name is among some.
fn is_named(names: &[Name], name: &str) -> bool
    ensures { result ≡ has_key names.now name.now }
{
    names.iter().any(|n| n.as_str() == name)
}

/// The name that is kept as this text.
fn name_of(alloc: Global, text: &str) -> Result<Name, Memory>
    requires { IsName text.now }
    ensures { IfOk result (λ name. name ≡ text.now) }
{
    match Name::of_bytes(alloc, text.as_bytes())? {
        Some(name) => Ok(name),
        None => unreachable!(),
    }
}

/// Names a section, unless it is named.
fn want_name(alloc: Global, name: &str, names: &mut Vec<Name>) -> Result<(), Memory>
    requires { IsName name.now }
    ensures { OnOk result (names.new.items ≡ with_name name.now names.old.items) }
{
    if is_named(names, name) {
        return Ok(());
    }
    names.push(name_of(alloc, name)?)?;
    Ok(())
}

/// Names the sections of a query, each once.
pub(crate) fn want_names(alloc: Global, flat: &Flat, names: &mut Vec<Name>) -> Result<(), Memory>
    ensures { OnOk result (names.new.items ≡ with_names (reduced_of flat.now) names.old.items) }
{
    match flat {
        Flat::Term(_) => Ok(()),
        Flat::Near { .. } => Ok(()),
        Flat::Define(_, _) => Ok(()),
        Flat::And(a, b) => {
            want_names(alloc, a, names)?;
            want_names(alloc, b, names)
        }
        Flat::Or(a, b) => {
            want_names(alloc, a, names)?;
            want_names(alloc, b, names)
        }
        Flat::Not(a, b) => {
            want_names(alloc, a, names)?;
            want_names(alloc, b, names)
        }
        Flat::Minus(a, b) => {
            want_names(alloc, a, names)?;
            want_names(alloc, b, names)
        }
        Flat::Weight(_, a) => want_names(alloc, a, names),
        Flat::Above(_, a) => want_names(alloc, a, names),
        Flat::Within(Place::Field(_), a) => want_names(alloc, a, names),
        Flat::Within(Place::Zone(name), a) => {
            want_name(alloc, name.as_str(), names)?;
            want_names(alloc, a, names)
        }
        Flat::Within(Place::Sentence, a) => {
            want_name(alloc, "sentence", names)?;
            want_names(alloc, a, names)
        }
        Flat::Within(Place::Paragraph, a) => {
            want_name(alloc, "paragraph", names)?;
            want_names(alloc, a, names)
        }
    }
}
