//! What the parts of a query read.

ghost use Rattle.std.specs.Prelude.{◌≡◌, [], true, IfOk, OnOk};
ghost use Rattle.ix_spans.specs.Slots.{SlotsRise};
ghost use Rattle.ix_spans.specs.Views.{slots_view};
ghost use Rattle.std.specs.List.{list_all};
ghost use Rattle.ix_lists.specs.Seeking.{SameFrom, BoundsFrom, has_any};
ghost use Rattle.ix_lists.specs.Documents.{places_at};
ghost use Rattle.ix_cursor.specs.Feeding.{slot_at, slots_at, phrase_at, phrases_at, term_at, operands_at};
ghost use Rattle.ix_cursor.specs.MayScore.{may_fit, may_occur, may_match};
ghost use Rattle.ix_cursor.specs.Passing.{slot_passed, phrase_passed, term_passed, section_passed};

use crate::bounding::{earlier, later};
use crate::passing::pass_list;
use crate::tokens::Tokens;
use ct_base::{Memory, Pair, Pairs};
use ix_lists::Postings;
use q_sums::Sum;
use std::alloc::Global;
use std::marker::Model;

/// The tokens that a slot takes, each with its documents.
#[derive(Drop)]
pub(crate) struct TokenFeeds {
    pub(crate) tokens: Box<Tokens>,
}

/// The positions that each slot of a phrase takes in one document, rising strictly; None where any key fits. Contracts see them as
/// lists of positions.
#[derive(Drop)]
pub(crate) struct SeenSlots {
    slots: Vec<Option<Vec<u32>>>,
}

impl Model for SeenSlots {
    ghost use Rattle.ix_spans.specs.Occurrences.{Slots};
    ghost use Rattle.ix_spans.specs.Slots.{SlotsRise};
    ghost use Rattle.ix_spans.specs.Views.{slots_view};

    ghost Value = { Slots };

    ghost view = { λ s. slots_view s.slots.items };

    ghost invariant = { λ s. SlotsRise (slots_view s.slots.items) };
}

impl SeenSlots {
    /// No slots, as long as no document was seen.
    pub(crate) fn empty(alloc: Global) -> SeenSlots
        ensures { result ≡ [] }
    {
        SeenSlots {
            slots: Vec::new(alloc),
        }
    }

    /// The slots with these positions, without a copy.
    pub(crate) fn of(slots: Vec<Option<Vec<u32>>>) -> SeenSlots
        requires { SlotsRise (slots_view slots.items) }
        ensures { result ≡ slots_view slots.items }
    {
        SeenSlots { slots }
    }

    /// The positions slot by slot.
    pub(crate) fn as_slice(&self) -> &[Option<Vec<u32>>]
        ensures value { slots_view result.now ≡ self.now }
        ensures rise { SlotsRise (slots_view result.now) }
    {
        self.slots.as_slice()
    }
}

/// The slots of a phrase, each with its documents; None where any key fits. Beside them what they have in the document that was seen
/// last.
#[derive(Drop)]
pub(crate) struct PhraseFeed {
    pub(crate) slots: Vec<Option<TokenFeeds>>,
    pub(crate) seen: SeenSlots,
}

/// The phrases of a term.
#[derive(Drop)]
pub(crate) struct TermFeed {
    pub(crate) phrases: Vec<PhraseFeed>,
}

/// Operands that are to stand near one another.
#[derive(Drop)]
pub(crate) struct NearFeed {
    pub(crate) operands: Vec<TermFeed>,
    pub(crate) span: u8,
    pub(crate) ordered: bool,
}

/// A term whose score is a sum over how often it occurs.
#[derive(Drop)]
pub(crate) struct SumFeed {
    pub(crate) term: TermFeed,
    pub(crate) sum: Sum,
}

/// The documents of a section, and of the document that was seen last its pairs, each with the score of the part over it.
#[derive(Drop)]
pub(crate) struct SpanFeed {
    pub(crate) documents: Postings<Pair>,
    pub(crate) seen: Pairs,
    pub(crate) scores: Vec<u32>,
}

/// Passes the documents before `to` in a slot, and bounds those in which it may fit.
fn pass_slot(slot: &mut Option<TokenFeeds>, alloc: Global, to: u32) -> Result<Option<u32>, Memory>
    ensures keeps { OnOk result (SameFrom to (slot_at slot.old) (slot_at slot.new)) }
    ensures passed { OnOk result (slot_passed to slot.new ≡ true) }
    ensures bound { IfOk result (λ bound. BoundsFrom to (λ d. may_fit (slot_at slot.new d)) bound) }
{
    match slot {
        None => Ok(Some(0)),
        Some(feeds) => {
            let bound = feeds.tokens.pass(alloc, to)?;
            Ok(bound)
        }
    }
}

/// Passes the documents before `to` in each slot, and bounds those in which the phrase may occur.
fn pass_slots(
    slots: &mut [Option<TokenFeeds>],
    alloc: Global,
    to: u32,
) -> Result<Option<u32>, Memory>
    ensures keeps { OnOk result (SameFrom to (slots_at slots.old) (slots_at slots.new)) }
    ensures passed { OnOk result (list_all (slot_passed to) slots.new ≡ true) }
    ensures bound { IfOk result (λ bound. BoundsFrom to (λ d. may_occur (slots_at slots.new d)) bound) }
{
    let mut bound = Some(0);
    for i in 0..slots.len() {
        bound = later(bound, pass_slot(&mut slots[i], alloc, to)?);
    }
    Ok(bound)
}

/// Passes the documents before `to` in a phrase, and bounds those in which it may occur.
fn pass_phrase(phrase: &mut PhraseFeed, alloc: Global, to: u32) -> Result<Option<u32>, Memory>
    ensures keeps { OnOk result (SameFrom to (phrase_at phrase.old) (phrase_at phrase.new)) }
    ensures passed { OnOk result (phrase_passed to phrase.new ≡ true) }
    ensures bound { IfOk result (λ bound. BoundsFrom to (λ d. may_occur (phrase_at phrase.new d)) bound) }
{
    let bound = pass_slots(&mut phrase.slots, alloc, to)?;
    Ok(bound)
}

/// Passes the documents before `to` in each phrase, and bounds those in which the term may occur.
fn pass_phrases(phrases: &mut [PhraseFeed], alloc: Global, to: u32) -> Result<Option<u32>, Memory>
    ensures keeps { OnOk result (SameFrom to (phrases_at phrases.old) (phrases_at phrases.new)) }
    ensures passed { OnOk result (list_all (phrase_passed to) phrases.new ≡ true) }
    ensures bound { IfOk result (λ bound. BoundsFrom to (λ d. may_match (phrases_at phrases.new d)) bound) }
{
    let mut bound = None;
    for i in 0..phrases.len() {
        bound = earlier(bound, pass_phrase(&mut phrases[i], alloc, to)?);
    }
    Ok(bound)
}

/// Passes the documents before `to` in a term, and bounds those in which it may occur.
pub(crate) fn pass_term(term: &mut TermFeed, alloc: Global, to: u32) -> Result<Option<u32>, Memory>
    ensures keeps { OnOk result (SameFrom to (term_at term.old) (term_at term.new)) }
    ensures passed { OnOk result (term_passed to term.new ≡ true) }
    ensures bound { IfOk result (λ bound. BoundsFrom to (λ d. may_match (term_at term.new d)) bound) }
{
    let bound = pass_phrases(&mut term.phrases, alloc, to)?;
    Ok(bound)
}

/// Passes the documents before `to` in each operand, and bounds those in which each operand may occur.
pub(crate) fn pass_operands(
    operands: &mut [TermFeed],
    alloc: Global,
    to: u32,
) -> Result<Option<u32>, Memory>
    ensures keeps { OnOk result (SameFrom to (operands_at operands.old) (operands_at operands.new)) }
    ensures passed { OnOk result (list_all (term_passed to) operands.new ≡ true) }
    ensures bound { IfOk result (λ bound. BoundsFrom to (λ d. list_all may_match (operands_at operands.new d)) bound) }
{
    let mut bound = Some(0);
    for i in 0..operands.len() {
        bound = later(bound, pass_term(&mut operands[i], alloc, to)?);
    }
    Ok(bound)
}

/// Passes the documents before `to` of a section, and gives the first that is left.
pub(crate) fn pass_section(
    section: &mut SpanFeed,
    alloc: Global,
    to: u32,
) -> Result<Option<u32>, Memory>
    ensures keeps { OnOk result (SameFrom to (places_at section.old.documents) (places_at section.new.documents)) }
    ensures passed { OnOk result (section_passed to section.new ≡ true) }
    ensures bound { IfOk result (λ bound. BoundsFrom to (λ d. has_any (places_at section.new.documents d)) bound) }
{
    let first = pass_list(&mut section.documents, to)?;
    Ok(first)
}
