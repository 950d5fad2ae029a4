//! The parts of queries as bytes.

ghost use Rattle.std.specs.Prelude.{◌≡◌, ◌++◌, ◌∷◌, [], ◌<◌, ◌^◌, length, true, IfOk, OnOk};
ghost use Rattle.ct_base.specs.Names.{is_kept};
ghost use Rattle.ct_bytes.specs.Varints.{varint, text_bytes};
ghost use Rattle.tx_settings.specs.PrefsBytes.{is_short};
ghost use Rattle.q_tree.specs.ReducedQueries.{reduced_of};
ghost use Rattle.q_stored.specs.QueryBytes.{bit_spelling, is_written_bit, slot_spelling, is_written_slot, place_spelling, is_written_place, step_spelling, is_written_step, head_spelling, is_written_head, query_head, order_byte};
ghost use Rattle.q_stored.specs.Writing.{PutsNodes, PutsWithin};

use crate::items::put_list;
use ct_base::{Memory, Name};
use ct_bytes::{put_text, put_varint};
use q_tree::{Flat, PatternBit, Place, Slot, SumStep};

/// How many bytes a stored query has at most.
pub(crate) const BYTE_LIMIT: usize = 1 << 26;

/// Puts a byte at the end.
pub(crate) fn put_byte(out: &mut Vec<u8>, byte: u8) -> Result<bool, Memory>
    ensures { IfOk result (PutsWithin out.old.items out.new.items true (byte ∷ [])) }
{
    out.push(byte)?;
    Ok(out.len() <= BYTE_LIMIT)
}

/// Puts a count at the end.
pub(crate) fn put_count(out: &mut Vec<u8>, count: usize) -> Result<(), Memory>
    requires { count < 2 ^ 32 }
    ensures { OnOk result (out.new.items ≡ out.old.items ++ varint count) }
{
    put_varint(out, count as u32)
}

/// Puts bytes after their length at the end.
pub(crate) fn put_bytes(out: &mut Vec<u8>, bytes: &[u8]) -> Result<bool, Memory>
    ensures { IfOk result (PutsWithin out.old.items out.new.items (is_short bytes.now) (text_bytes bytes.now)) }
{
    if bytes.len() > BYTE_LIMIT {
        return Ok(false);
    }
    put_text(out, bytes)?;
    Ok(out.len() <= BYTE_LIMIT)
}

/// Puts a name after its length at the end.
#[tactic(auto, using(ct_base::specs::laws::Names::name_is_kept))]
fn put_name(out: &mut Vec<u8>, name: &Name) -> Result<bool, Memory>
    ensures { IfOk result (PutsWithin out.old.items out.new.items (is_kept name.now) (text_bytes name.now)) }
{
    put_bytes(out, name.as_str().as_bytes())
}

/// Puts a piece of a pattern at the end.
pub(crate) fn put_bit(out: &mut Vec<u8>, bit: &PatternBit) -> Result<bool, Memory>
    ensures { IfOk result (PutsWithin out.old.items out.new.items (is_written_bit bit.now) (bit_spelling bit.now)) }
{
    match bit {
        PatternBit::Chars(text) => {
            out.push(1)?;
            put_bytes(out, text.as_str().as_bytes())
        }
        PatternBit::One => put_byte(out, 2),
        PatternBit::Many => put_byte(out, 3),
    }
}

/// Puts a slot at the end.
pub(crate) fn put_slot(out: &mut Vec<u8>, slot: &Slot) -> Result<bool, Memory>
    ensures { IfOk result (PutsWithin out.old.items out.new.items (is_written_slot slot.now) (slot_spelling slot.now)) }
{
    match slot {
        Slot::Any => put_byte(out, 0),
        Slot::Takes { keys, patterns } => {
            out.push(1)?;
            if !put_list(out, keys.as_slice())? {
                return Ok(false);
            }
            put_list(out, patterns.as_slice())
        }
    }
}

/// Puts a place at the end.
fn put_place(out: &mut Vec<u8>, place: &Place) -> Result<bool, Memory>
    ensures { IfOk result (PutsWithin out.old.items out.new.items (is_written_place place.now) (place_spelling place.now)) }
{
    match place {
        Place::Zone(name) => {
            out.push(1)?;
            put_name(out, name)
        }
        Place::Field(stream) => {
            out.push(2)?;
            put_byte(out, *stream)
        }
        Place::Sentence => put_byte(out, 3),
        Place::Paragraph => put_byte(out, 4),
    }
}

/// Puts a step of a sum at the end.
pub(crate) fn put_step(out: &mut Vec<u8>, step: &SumStep) -> Result<bool, Memory>
    ensures { IfOk result (PutsWithin out.old.items out.new.items (is_written_step step.now) (step_spelling step.now)) }
{
    match step {
        SumStep::Number(number) => {
            out.push(1)?;
            out.push((*number / 256) as u8)?;
            put_byte(out, (*number % 256) as u8)
        }
        SumStep::Discrete => put_byte(out, 2),
        SumStep::Occurrence => put_byte(out, 3),
        SumStep::Plus => put_byte(out, 4),
        SumStep::Minus => put_byte(out, 5),
        SumStep::Times => put_byte(out, 6),
    }
}

/// Whether operands are ordered, as a byte.
fn order_byte(ordered: bool) -> u8
    ensures { result ≡ order_byte ordered }
{
    if ordered { 1 } else { 0 }
}

/// Puts the head of a query at the end.
fn put_head(out: &mut Vec<u8>, query: &Flat) -> Result<bool, Memory>
    ensures { IfOk result (PutsWithin out.old.items out.new.items (is_written_head (query_head (reduced_of query.now))) (head_spelling (query_head (reduced_of query.now)))) }
{
    match query {
        Flat::Term(phrases) => {
            out.push(1)?;
            put_list(out, phrases.as_slice())
        }
        Flat::And(_, _) => put_byte(out, 2),
        Flat::Or(_, _) => put_byte(out, 3),
        Flat::Not(_, _) => put_byte(out, 4),
        Flat::Minus(_, _) => put_byte(out, 5),
        Flat::Weight(tenths, _) => {
            out.push(6)?;
            put_byte(out, *tenths)
        }
        Flat::Above(number, _) => {
            out.push(7)?;
            put_byte(out, *number)
        }
        Flat::Near {
            operands,
            span,
            ordered,
        } => {
            out.push(8)?;
            out.push(*span)?;
            out.push(order_byte(*ordered))?;
            put_list(out, operands.as_slice())
        }
        Flat::Within(place, _) => {
            out.push(9)?;
            put_place(out, place)
        }
        Flat::Define(phrases, sum) => {
            out.push(10)?;
            if !put_list(out, phrases.as_slice())? {
                return Ok(false);
            }
            put_list(out, sum.as_slice())
        }
    }
}

/// Puts a query at the end, of at most so many nodes, and gives how many nodes may still come; None where it has more, or where there
/// are more bytes then than may be stored. It goes no deeper than this number.
pub(crate) fn put_query(
    out: &mut Vec<u8>,
    query: &Flat,
    nodes: usize,
) -> Result<Option<usize>, Memory>
    ensures { IfOk result (PutsNodes out.old.items out.new.items nodes (reduced_of query.now)) }
{
    if nodes == 0 {
        return Ok(None);
    }
    if !put_head(out, query)? {
        return Ok(None);
    }
    let left = nodes - 1;
    match query {
        Flat::And(a, b) | Flat::Or(a, b) | Flat::Not(a, b) | Flat::Minus(a, b) => {
            let Some(left) = put_query(out, a, left)? else {
                return Ok(None);
            };
            put_query(out, b, left)
        }
        Flat::Weight(_, a) | Flat::Above(_, a) | Flat::Within(_, a) => put_query(out, a, left),
        Flat::Term(_) | Flat::Near { .. } | Flat::Define(_, _) => Ok(Some(left)),
    }
}
