//! Which entries of indexes are well shaped, each by itself.

ghost use Rattle.std.specs.Prelude.{◌≡◌, ◌↔◌, ◌≤◌, ℕ, List, IfOk, IfSome, IfNone, IsTrue, length};
ghost use Rattle.ct_entry.specs.Keys.{span_part, IsDocument};
ghost use Rattle.ct_entry.specs.declared.kinds.Kind.TheVariants as kind;
ghost use Rattle.ix_context.specs.Shapes.{IsDocumentPart, IsContextShape, IsPostingPart, NamesSpanDocument, StartsAt};

use crate::entries::index_of;
use crate::places::STREAM_LIMIT;
use ct_base::{Memory, Name, Pair};
use ct_bytes::read_u32;
use ct_entry::{Kind, is_row_part};
use ix_posting::{Place, Row, RowFault};
use std::alloc::Global;

/// Whether the bytes are the four of a document.
fn is_document_part(part: &[u8]) -> bool
    ensures { IsTrue result ↔ IsDocumentPart part.now }
{
    match read_u32(part, 0) {
        Some(_) => part.len() == 4,
        None => false,
    }
}

/// A text after its length in one byte, and a document after it. None where the bytes are anything else.
fn text_and_document(bytes: &[u8]) -> Option<(&[u8], u32)>
    ensures some { IfSome result (λ r. bytes.now ≡ span_part r.0.now r.1) }
    ensures short { IfSome result (λ r. length r.0.now ≤ 255) }
    ensures document { IfSome result (λ r. IsDocument r.1) }
    ensures none { IfNone result ((text : List ℕ) (document : ℕ) → IsDocument document → bytes.now ≡ span_part text document → ⊥) }
{
    let (len, rest) = bytes.split_first()?;
    let len = *len as usize;
    if rest.len() != len + 4 {
        return None;
    }
    let document = read_u32(rest, len)?;
    Some((&rest[..len], document))
}

/// The first document that the rest of a key of postings names. None where the bytes are no such rest.
fn posting_document(part: &[u8]) -> Option<u32>
    ensures some { IfSome result (λ document. IsPostingPart part.now document) }
    ensures none { IfNone result ((document : ℕ) → IsDocument document → IsPostingPart part.now document → ⊥) }
{
    let (stream, rest) = part.split_first()?;
    let (token, document) = text_and_document(rest)?;
    if *stream <= STREAM_LIMIT && !token.is_empty() {
        Some(document)
    } else {
        None
    }
}

/// The first document that the rest of a key of spans names. None where the bytes are no such rest.
fn span_document(alloc: Global, part: &[u8]) -> Result<Option<u32>, Memory>
    ensures { IfOk result (λ found. NamesSpanDocument part.now found) }
{
    let Some((section, document)) = text_and_document(part) else {
        return Ok(None);
    };
    let Some(_name) = Name::of_bytes(alloc, section)? else {
        return Ok(None);
    };
    Ok(Some(document))
}

/// Whether the bytes are a row of postings, with places of this form, whose first document is this.
fn is_row_from<P: Place>(alloc: Global, value: &[u8], document: u32) -> Result<bool, Memory>
    ensures { IfOk result (λ is. IsTrue is ↔ StartsAt P.form document value.now) }
{
    match Row::<P>::decode(alloc, value) {
        Ok(row) => Ok(row.documents()[0].document == document),
        Err(RowFault::BadRow) => Ok(false),
        Err(RowFault::Memory) => Err(Memory),
    }
}

/// Whether these are the rest of the key of an index, and its entry.
fn is_index_entry(alloc: Global, part: &[u8], value: &[u8]) -> Result<bool, Memory>
    ensures { IfOk result (λ is. IsTrue is ↔ IsContextShape kind.Indexes part.now value.now) }
{
    let Some(_entry) = index_of(alloc, value)? else {
        return Ok(false);
    };
    Ok(part.is_empty())
}

/// Whether these are the rest of a key of postings, and a row with the key's first document.
fn is_posting_entry(alloc: Global, part: &[u8], value: &[u8]) -> Result<bool, Memory>
    ensures { IfOk result (λ is. IsTrue is ↔ IsContextShape kind.Postings part.now value.now) }
{
    let Some(document) = posting_document(part) else {
        return Ok(false);
    };
    is_row_from::<u32>(alloc, value, document)
}

/// Whether these are the rest of a key of spans, and a row with the key's first document.
fn is_span_entry(alloc: Global, part: &[u8], value: &[u8]) -> Result<bool, Memory>
    ensures { IfOk result (λ is. IsTrue is ↔ IsContextShape kind.Spans part.now value.now) }
{
    let Some(document) = span_document(alloc, part)? else {
        return Ok(false);
    };
    is_row_from::<Pair>(alloc, value, document)
}

/// Whether a key of this kind may have this rest, and an entry of an index under it this value. No other entry is looked at:
/// there may be no such table, row or document.
///
/// Its cost is the length of both.
pub fn is_context_shape(
    alloc: Global,
    kind: Kind,
    part: &[u8],
    value: &[u8],
) -> Result<bool, Memory>
    ensures { IfOk result (λ is. IsTrue is ↔ IsContextShape kind part.now value.now) }
{
    match kind {
        Kind::Indexes => is_index_entry(alloc, part, value),
        Kind::DocumentRows => Ok(is_document_part(part) && is_row_part(value)),
        Kind::RowDocuments => Ok(is_row_part(part) && is_document_part(value)),
        Kind::Pending => Ok(is_row_part(part) && value.is_empty()),
        Kind::Postings => is_posting_entry(alloc, part, value),
        Kind::Spans => is_span_entry(alloc, part, value),
        _ => Ok(false),
    }
}
