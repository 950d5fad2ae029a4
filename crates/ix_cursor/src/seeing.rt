//! What the parts of a query have in one document.

ghost use Rattle.std.specs.Prelude.{◌≡◌, IfOk, OnOk};
ghost use Rattle.ix_spans.specs.Slots.{SlotRises, SlotsRise};
ghost use Rattle.ix_spans.specs.Views.{slot_view, slots_view};
ghost use Rattle.ix_lists.specs.Documents.{places_at};
ghost use Rattle.ix_lists.specs.Seeking.{SameFrom};
ghost use Rattle.ix_cursor.specs.Feeding.{slot_at, slots_at, phrase_at, phrases_at, term_at, operands_at};
ghost use Rattle.ix_cursor.specs.Seen.{seen_phrase, seen_phrases, seen_term, seen_operands};

use crate::feeds::{PhraseFeed, SeenSlots, SpanFeed, TermFeed, TokenFeeds};
use ct_base::Memory;
use std::alloc::Global;

/// The positions that a slot takes in a document, rising; None where it takes any. The cost is that of `Tokens::positions`.
fn positions_in(
    alloc: Global,
    slot: &Option<TokenFeeds>,
    document: u32,
) -> Result<Option<Vec<u32>>, Memory>
    ensures positions { IfOk result (λ v. slot_view v ≡ slot_at slot.now document) }
    ensures rise { IfOk result (λ v. SlotRises (slot_view v)) }
{
    match slot {
        None => Ok(None),
        Some(feeds) => {
            let positions = feeds.tokens.positions(alloc, document)?;
            Ok(Some(positions))
        }
    }
}

/// The positions that slots take in a document, rising in each slot. The cost is that of `Tokens::positions`, for each slot.
fn positions_of(
    alloc: Global,
    slots: &[Option<TokenFeeds>],
    document: u32,
) -> Result<Vec<Option<Vec<u32>>>, Memory>
    ensures positions { IfOk result (λ v. slots_view v.items ≡ slots_at slots.now document) }
    ensures rise { IfOk result (λ v. SlotsRise (slots_view v.items)) }
{
    let mut out = Vec::new(alloc);
    for slot in slots {
        out.push(positions_in(alloc, slot, document)?)?;
    }
    Ok(out)
}

/// Takes up the positions that the slots of a phrase have in a document. The cost is that of `positions_of`, however many ranges of the
/// document are scored then.
fn see_phrase(phrase: &mut PhraseFeed, alloc: Global, document: u32) -> Result<(), Memory>
    ensures seen { OnOk result (seen_phrase phrase.new ≡ phrase_at phrase.old document) }
    ensures keeps { OnOk result (phrase.new.slots ≡ phrase.old.slots) }
{
    let positions = positions_of(alloc, &phrase.slots, document)?;
    phrase.seen = SeenSlots::of(positions);
    Ok(())
}

/// Takes up what each phrase has in a document.
fn see_phrases(phrases: &mut [PhraseFeed], alloc: Global, document: u32) -> Result<(), Memory>
    ensures seen { OnOk result (seen_phrases phrases.new ≡ phrases_at phrases.old document) }
    ensures keeps { OnOk result (SameFrom 0 (phrases_at phrases.old) (phrases_at phrases.new)) }
{
    for i in 0..phrases.len() {
        see_phrase(&mut phrases[i], alloc, document)?;
    }
    Ok(())
}

/// Takes up what the phrases of a term have in a document.
pub(crate) fn see_term(term: &mut TermFeed, alloc: Global, document: u32) -> Result<(), Memory>
    ensures seen { OnOk result (seen_term term.new ≡ term_at term.old document) }
    ensures keeps { OnOk result (SameFrom 0 (term_at term.old) (term_at term.new)) }
{
    see_phrases(&mut term.phrases, alloc, document)?;
    Ok(())
}

/// Takes up what each operand has in a document.
pub(crate) fn see_operands(
    operands: &mut [TermFeed],
    alloc: Global,
    document: u32,
) -> Result<(), Memory>
    ensures seen { OnOk result (seen_operands operands.new ≡ operands_at operands.old document) }
    ensures keeps { OnOk result (SameFrom 0 (operands_at operands.old) (operands_at operands.new)) }
{
    for i in 0..operands.len() {
        see_term(&mut operands[i], alloc, document)?;
    }
    Ok(())
}

/// Takes up the pairs that a section has in a document.
pub(crate) fn see_section(
    section: &mut SpanFeed,
    alloc: Global,
    document: u32,
) -> Result<(), Memory>
    ensures seen { OnOk result (section.new.seen ≡ places_at section.old.documents document) }
    ensures keeps { OnOk result (section.new.documents ≡ section.old.documents) }
{
    section.seen = section.documents.places_at(alloc, document)?;
    Ok(())
}
