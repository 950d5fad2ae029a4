//! The parts of queries read from bytes.

ghost use Rattle.std.specs.Prelude.{◌≡◌, ◌≤◌, false, true, length, IfOk, MatchOption};
ghost use Rattle.std.specs.Str.{is_utf8};
ghost use Rattle.ct_base.specs.Names.{is_kept};
ghost use Rattle.ct_bytes.specs.Varints.{text_bytes};
ghost use Rattle.tx_settings.specs.PrefsBytes.{Reads, always, is_short, is_text};
ghost use Rattle.q_stored.specs.QueryBytes.{bit_body, bit_spelling, bit_tag, is_written_bit, slot_body, slot_spelling, slot_tag, is_written_slot, place_body, place_spelling, place_tag, is_written_place, step_body, step_spelling, step_tag, is_written_step, head_body, head_spelling, head_tag, is_written_head};
ghost use Rattle.q_stored.specs.Reading.{ReadsBody, byte_spelling, order_spelling};

use crate::heads::Head;
use crate::items::read_list;
use ct_base::{Listed, Memory, Name, Text};
use ct_bytes::read_text;
use q_tree::{Op, PatternBit, Place, Slot, SumStep};
use std::alloc::Global;
use tx_chars::Key;

// ---- bytes and texts

/// The byte that stands at `at`, and the place after it.
fn read_byte(bytes: &[u8], at: usize) -> Option<(u8, usize)>
    ensures { Reads always byte_spelling bytes.now at result }
{
    let byte = *bytes.get(at)?;
    Some((byte, at + 1))
}

/// The key that stands from `at` on after its length, and the place after it.
pub(crate) fn read_key(
    alloc: Global,
    bytes: &[u8],
    at: usize,
) -> Result<Option<(Key, usize)>, Memory>
    ensures { IfOk result (Reads is_short text_bytes bytes.now at) }
{
    let Some((key, next)) = read_text(bytes, at) else {
        return Ok(None);
    };
    Ok(Some((Key::of(Vec::from_slice(alloc, key)?), next)))
}

/// The text that the bytes are in UTF-8; None where they aren't UTF-8.
fn text_of(alloc: Global, bytes: &[u8]) -> Result<Option<Text>, Memory>
    ensures { IfOk result (λ found. MatchOption found (is_utf8 bytes.now ≡ false) (λ text. (text ≡ bytes.now) × (is_utf8 bytes.now ≡ true))) }
{
    match str::from_utf8(bytes) {
        Ok(text) => Ok(Some(Text::of(alloc, text)?)),
        Err(_) => Ok(None),
    }
}

/// The text that stands from `at` on after its length, and the place after it.
fn read_word(alloc: Global, bytes: &[u8], at: usize) -> Result<Option<(Text, usize)>, Memory>
    ensures { IfOk result (Reads is_text text_bytes bytes.now at) }
{
    let Some((bytes, next)) = read_text(bytes, at) else {
        return Ok(None);
    };
    let Some(text) = text_of(alloc, bytes)? else {
        return Ok(None);
    };
    Ok(Some((text, next)))
}

/// The name that stands from `at` on after its length, and the place after it.
fn read_name(alloc: Global, bytes: &[u8], at: usize) -> Result<Option<(Name, usize)>, Memory>
    ensures { IfOk result (Reads is_kept text_bytes bytes.now at) }
{
    let Some((text, next)) = read_text(bytes, at) else {
        return Ok(None);
    };
    let Some(name) = Name::of_bytes(alloc, text)? else {
        return Ok(None);
    };
    Ok(Some((name, next)))
}

// ---- patterns and slots

/// What follows the tag of a piece of a pattern.
fn read_bit_body(
    alloc: Global,
    bytes: &[u8],
    at: usize,
    tag: u8,
) -> Result<Option<(PatternBit, usize)>, Memory>
    requires { at ≤ length bytes.now }
    ensures { IfOk result (ReadsBody is_written_bit bit_tag bit_body tag bytes.now at) }
{
    if tag == 1 {
        let Some((text, next)) = read_word(alloc, bytes, at)? else {
            return Ok(None);
        };
        return Ok(Some((PatternBit::Chars(text), next)));
    }
    if tag == 2 {
        return Ok(Some((PatternBit::One, at)));
    }
    if tag == 3 {
        return Ok(Some((PatternBit::Many, at)));
    }
    Ok(None)
}

/// The piece of a pattern that stands from `at` on, and the place after it.
pub(crate) fn read_bit(
    alloc: Global,
    bytes: &[u8],
    at: usize,
) -> Result<Option<(PatternBit, usize)>, Memory>
    ensures { IfOk result (Reads is_written_bit bit_spelling bytes.now at) }
{
    let Some((tag, next)) = read_byte(bytes, at) else {
        return Ok(None);
    };
    let found = read_bit_body(alloc, bytes, next, tag)?;
    Ok(found)
}

/// The keys and patterns of a slot.
fn read_takes(alloc: Global, bytes: &[u8], at: usize) -> Result<Option<(Slot, usize)>, Memory>
    ensures { IfOk result (ReadsBody is_written_slot slot_tag slot_body 1 bytes.now at) }
{
    let Some((keys, mid)) = read_list(alloc, bytes, at)? else {
        return Ok(None);
    };
    let Some((patterns, next)) = read_list(alloc, bytes, mid)? else {
        return Ok(None);
    };
    let slot = Slot::Takes {
        keys: Listed::of(keys),
        patterns: Listed::of(patterns),
    };
    Ok(Some((slot, next)))
}

/// What follows the tag of a slot.
fn read_slot_body(
    alloc: Global,
    bytes: &[u8],
    at: usize,
    tag: u8,
) -> Result<Option<(Slot, usize)>, Memory>
    requires { at ≤ length bytes.now }
    ensures { IfOk result (ReadsBody is_written_slot slot_tag slot_body tag bytes.now at) }
{
    if tag == 0 {
        return Ok(Some((Slot::Any, at)));
    }
    if tag == 1 {
        return read_takes(alloc, bytes, at);
    }
    Ok(None)
}

/// The slot that stands from `at` on, and the place after it.
pub(crate) fn read_slot(
    alloc: Global,
    bytes: &[u8],
    at: usize,
) -> Result<Option<(Slot, usize)>, Memory>
    ensures { IfOk result (Reads is_written_slot slot_spelling bytes.now at) }
{
    let Some((tag, next)) = read_byte(bytes, at) else {
        return Ok(None);
    };
    let found = read_slot_body(alloc, bytes, next, tag)?;
    Ok(found)
}

// ---- places, and the steps of sums

/// What follows the tag of a place.
fn read_place_body(
    alloc: Global,
    bytes: &[u8],
    at: usize,
    tag: u8,
) -> Result<Option<(Place, usize)>, Memory>
    requires { at ≤ length bytes.now }
    ensures { IfOk result (ReadsBody is_written_place place_tag place_body tag bytes.now at) }
{
    if tag == 1 {
        let Some((name, next)) = read_name(alloc, bytes, at)? else {
            return Ok(None);
        };
        return Ok(Some((Place::Zone(name), next)));
    }
    if tag == 2 {
        let Some((stream, next)) = read_byte(bytes, at) else {
            return Ok(None);
        };
        return Ok(Some((Place::Field(stream), next)));
    }
    if tag == 3 {
        return Ok(Some((Place::Sentence, at)));
    }
    if tag == 4 {
        return Ok(Some((Place::Paragraph, at)));
    }
    Ok(None)
}

/// The place of a part that stands from `at` on, and the place after it.
fn read_place(alloc: Global, bytes: &[u8], at: usize) -> Result<Option<(Place, usize)>, Memory>
    ensures { IfOk result (Reads is_written_place place_spelling bytes.now at) }
{
    let Some((tag, next)) = read_byte(bytes, at) else {
        return Ok(None);
    };
    let found = read_place_body(alloc, bytes, next, tag)?;
    Ok(found)
}

/// What follows the tag of a step.
fn read_step_body(bytes: &[u8], at: usize, tag: u8) -> Option<(SumStep, usize)>
    requires { at ≤ length bytes.now }
    ensures { ReadsBody is_written_step step_tag step_body tag bytes.now at result }
{
    if tag == 1 {
        let Some((high, mid)) = read_byte(bytes, at) else {
            return None;
        };
        let Some((low, next)) = read_byte(bytes, mid) else {
            return None;
        };
        return Some((
            SumStep::Number(u16::from(high) * 256 + u16::from(low)),
            next,
        ));
    }
    if tag == 2 {
        return Some((SumStep::Discrete, at));
    }
    if tag == 3 {
        return Some((SumStep::Occurrence, at));
    }
    if tag == 4 {
        return Some((SumStep::Plus, at));
    }
    if tag == 5 {
        return Some((SumStep::Minus, at));
    }
    if tag == 6 {
        return Some((SumStep::Times, at));
    }
    None
}

/// The step that stands from `at` on, and the place after it.
pub(crate) fn read_step(bytes: &[u8], at: usize) -> Result<Option<(SumStep, usize)>, Memory>
    ensures { IfOk result (Reads is_written_step step_spelling bytes.now at) }
{
    let Some((tag, next)) = read_byte(bytes, at) else {
        return Ok(None);
    };
    Ok(read_step_body(bytes, next, tag))
}

// ---- heads

/// The phrases of a term.
fn read_term(alloc: Global, bytes: &[u8], at: usize) -> Result<Option<(Head, usize)>, Memory>
    ensures { IfOk result (ReadsBody is_written_head head_tag head_body 1 bytes.now at) }
{
    let Some((phrases, next)) = read_list(alloc, bytes, at)? else {
        return Ok(None);
    };
    Ok(Some((Head::Term(Listed::of(phrases)), next)))
}

/// Whether operands are ordered, by the byte that says so.
fn read_order(bytes: &[u8], at: usize) -> Option<(bool, usize)>
    ensures { Reads always order_spelling bytes.now at result }
{
    let byte = *bytes.get(at)?;
    if byte > 1 {
        return None;
    }
    Some((byte == 1, at + 1))
}

/// The span, the order and the operands of a nearness.
fn read_near(alloc: Global, bytes: &[u8], at: usize) -> Result<Option<(Head, usize)>, Memory>
    ensures { IfOk result (ReadsBody is_written_head head_tag head_body 8 bytes.now at) }
{
    let Some((span, order_at)) = read_byte(bytes, at) else {
        return Ok(None);
    };
    let Some((ordered, start)) = read_order(bytes, order_at) else {
        return Ok(None);
    };
    let Some((operands, next)) = read_list(alloc, bytes, start)? else {
        return Ok(None);
    };
    let near = Head::Near {
        operands: Listed::of(operands),
        span,
        ordered,
    };
    Ok(Some((near, next)))
}

/// The place of a part.
fn read_within(alloc: Global, bytes: &[u8], at: usize) -> Result<Option<(Head, usize)>, Memory>
    ensures { IfOk result (ReadsBody is_written_head head_tag head_body 9 bytes.now at) }
{
    let Some((place, next)) = read_place(alloc, bytes, at)? else {
        return Ok(None);
    };
    Ok(Some((Head::Within(place), next)))
}

/// The phrases and the steps of a sum.
fn read_define(alloc: Global, bytes: &[u8], at: usize) -> Result<Option<(Head, usize)>, Memory>
    ensures { IfOk result (ReadsBody is_written_head head_tag head_body 10 bytes.now at) }
{
    let Some((phrases, mid)) = read_list(alloc, bytes, at)? else {
        return Ok(None);
    };
    let Some((sum, next)) = read_list(alloc, bytes, mid)? else {
        return Ok(None);
    };
    let head = Head::Define(Listed::of(phrases), Listed::of(sum));
    Ok(Some((head, next)))
}

/// What follows the tag of an operator, a weight or a threshold.
fn read_short(bytes: &[u8], at: usize, tag: u8) -> Option<(Head, usize)>
    requires no_term { tag ≡ 1 → ⊥ }
    requires no_list { tag ≡ 8 → ⊥ }
    requires no_place { tag ≡ 9 → ⊥ }
    requires no_sum { tag ≡ 10 → ⊥ }
    requires within { at ≤ length bytes.now }
    ensures { ReadsBody is_written_head head_tag head_body tag bytes.now at result }
{
    if tag == 2 {
        return Some((Head::Both(Op::And), at));
    }
    if tag == 3 {
        return Some((Head::Both(Op::Or), at));
    }
    if tag == 4 {
        return Some((Head::Both(Op::Not), at));
    }
    if tag == 5 {
        return Some((Head::Both(Op::Minus), at));
    }
    if tag == 6 {
        let (tenths, next) = read_byte(bytes, at)?;
        return Some((Head::Weight(tenths), next));
    }
    if tag == 7 {
        let (number, next) = read_byte(bytes, at)?;
        return Some((Head::Above(number), next));
    }
    None
}

/// What follows the tag of a head.
fn read_head_body(
    alloc: Global,
    bytes: &[u8],
    at: usize,
    tag: u8,
) -> Result<Option<(Head, usize)>, Memory>
    requires { at ≤ length bytes.now }
    ensures { IfOk result (ReadsBody is_written_head head_tag head_body tag bytes.now at) }
{
    if tag == 1 {
        return read_term(alloc, bytes, at);
    }
    if tag == 8 {
        return read_near(alloc, bytes, at);
    }
    if tag == 9 {
        return read_within(alloc, bytes, at);
    }
    if tag == 10 {
        return read_define(alloc, bytes, at);
    }
    Ok(read_short(bytes, at, tag))
}

/// The head that stands from `at` on, and the place after it.
pub(crate) fn read_head(
    alloc: Global,
    bytes: &[u8],
    at: usize,
) -> Result<Option<(Head, usize)>, Memory>
    ensures { IfOk result (Reads is_written_head head_spelling bytes.now at) }
{
    let Some((tag, next)) = read_byte(bytes, at) else {
        return Ok(None);
    };
    let found = read_head_body(alloc, bytes, next, tag)?;
    Ok(found)
}
