//! The fields of a text.

ghost use Rattle.std.specs.Prelude.{◌≡◌, ◌≤◌, ◌<◌, ◌++◌, ◌∷◌, [], IfOk, OnOk, length, if◌then◌else◌};
ghost use Rattle.tx_document.specs.Fields.{fields as field_count};
ghost use Rattle.tx_document.specs.Ranges.{AreRising, field_streams_at, has_word, is_hidden_at, marked_field, marked_fields, streams_at};

use crate::extents::{Extent, hides, is_field};
use crate::ranges::marks;
use ct_base::{Bytes, Listed, Memory};
use std::alloc::Global;
use tx_lexer::Token;

/// A field, and the words that it has.
#[derive(Drop)]
pub(crate) struct Field {
    /// From 1 on.
    pub(crate) stream: u8,
    /// Whether its words aren't in the main stream.
    pub(crate) hides: bool,
    /// For each word whether the field has it.
    pub(crate) marks: Listed<bool>,
}

/// The fields that stand in the text. Its cost is linear in the number of tokens, for each of them, and a logarithm for each of
/// their spans.
pub(crate) fn fields(
    alloc: Global,
    extents: &[Extent],
    tokens: &[Token],
) -> Result<Vec<Field>, Memory>
    requires few { field_count extents.now ≤ 64 }
    requires order { AreRising tokens.now }
    ensures { IfOk result (λ v. v.items ≡ marked_fields tokens.now 1 extents.now) }
{
    let mut found = Vec::new(alloc);
    let mut stream = 1;
    let mut rest = extents;
    while let [extent, later @ ..] = rest {
        if is_field(extent.kind()) {
            put_field(alloc, &mut found, stream, extent, tokens)?;
            stream += 1;
        }
        rest = later;
    }
    Ok(found)
}

/// Puts the field, where it stands in the text.
fn put_field(
    alloc: Global,
    found: &mut Vec<Field>,
    stream: u8,
    extent: &Extent,
    tokens: &[Token],
) -> Result<(), Memory>
    requires { AreRising tokens.now }
    ensures { OnOk result (found.new.items ≡ found.old.items ++ marked_field tokens.now stream extent.now) }
{
    if extent.spans().is_empty() {
        return Ok(());
    }
    let marks = marks(alloc, extent.spans(), tokens)?;
    found.push(Field {
        stream,
        hides: hides(extent.kind()),
        marks: Listed::of(marks),
    })?;
    Ok(())
}

/// The streams of the word at this place. Its cost is linear in the number of fields.
pub(crate) fn streams_at(alloc: Global, fields: &[Field], place: usize) -> Result<Bytes, Memory>
    ensures { IfOk result (λ s. s ≡ streams_at place fields.now) }
{
    let mut streams = Vec::new(alloc);
    put_main(&mut streams, is_hidden_at(fields, place))?;
    put_fields(&mut streams, fields, place)?;
    Ok(Bytes::of(streams))
}

fn put_main(streams: &mut Vec<u8>, is_hidden: bool) -> Result<(), Memory>
    ensures { OnOk result (streams.new.items ≡ streams.old.items ++ (if is_hidden then [] else 0 ∷ [])) }
{
    if !is_hidden {
        streams.push(0)?;
    }
    Ok(())
}

/// Puts the streams of the fields that have the word.
fn put_fields(streams: &mut Vec<u8>, fields: &[Field], place: usize) -> Result<(), Memory>
    ensures { OnOk result (streams.new.items ≡ streams.old.items ++ field_streams_at place fields.now) }
{
    let mut rest = fields;
    while let [field, later @ ..] = rest {
        put_if(streams, field.stream, has_word(field, place))?;
        rest = later;
    }
    Ok(())
}

fn put_if(streams: &mut Vec<u8>, stream: u8, is_in: bool) -> Result<(), Memory>
    ensures { OnOk result (streams.new.items ≡ streams.old.items ++ (if is_in then stream ∷ [] else [])) }
{
    if is_in {
        streams.push(stream)?;
    }
    Ok(())
}

/// Whether an invisible field has the word.
fn is_hidden_at(fields: &[Field], place: usize) -> bool
    ensures { result ≡ is_hidden_at place fields.now }
{
    let mut rest = fields;
    while let [field, later @ ..] = rest {
        if field.hides && has_word(field, place) {
            return true;
        }
        rest = later;
    }
    false
}

fn has_word(field: &Field, place: usize) -> bool
    ensures { result ≡ has_word place field.now }
{
    let marks = field.marks.as_slice();
    place < marks.len() && marks[place]
}
