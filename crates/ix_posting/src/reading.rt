//! The documents of a row, read from bytes.

ghost use Rattle.std.specs.Prelude.{◌≡◌, ℕ, List, IfOk, IfSome, IfNone, Err};
ghost use Rattle.ix_posting.specs.Places.{IsHeadAt, IsDocumentAt, AreDocumentsAt};
ghost use Rattle.ix_posting.specs.declared.rows.RowDocument.{RowDocument};

use crate::faults::RowFault;
use crate::numbers::read_number;
use crate::places::{Place, read_places};
use crate::rows::RowDocument;
use ct_base::Listed;
use ct_bytes::read_varint;
use std::alloc::Global;

/// What a document begins with: its number and how many places it has; and where the bytes go on after it.
#[derive(Clone, Copy)]
pub(crate) struct Head {
    pub(crate) document: u32,
    pub(crate) count: u32,
    pub(crate) next: usize,
}

/// What a document after `before` begins with, from `at` on.
pub(crate) fn read_head(bytes: &[u8], at: usize, before: u32) -> Option<Head>
    ensures some { IfSome result (λ h. IsHeadAt bytes.now before at h.document h.count h.next) }
    ensures none { IfNone result ((document count next : ℕ) → IsHeadAt bytes.now before at document count next → ⊥) }
{
    let (document, mid) = read_number(bytes, at, before)?;
    let (count, next) = read_varint(bytes, mid)?;
    if count == 0 {
        return None;
    }
    Some(Head {
        document,
        count,
        next,
    })
}

/// The document after `before` that stands from `at` on, and where the bytes go on after it.
fn read_document<P: Place>(
    alloc: Global,
    bytes: &[u8],
    at: usize,
    before: u32,
) -> Result<(RowDocument<P>, usize), RowFault>
    ensures ok { IfOk result (λ r. IsDocumentAt P.form bytes.now before at r.0 r.1) }
    ensures bad { result ≡ Err RowFault.BadRow → (d : RowDocument P) (next : ℕ) → IsDocumentAt P.form bytes.now before at d next → ⊥ }
{
    let Some(head) = read_head(bytes, at, before) else {
        return Err(RowFault::BadRow);
    };
    let (places, next) = read_places(alloc, bytes, head.next, head.count)?;
    let document = RowDocument {
        document: head.document,
        places: Listed::of(places),
    };
    Ok((document, next))
}

/// So many documents from `at` on, and where the bytes go on after them. Memory is taken only as documents are read.
pub(crate) fn read_documents<P: Place>(
    alloc: Global,
    bytes: &[u8],
    at: usize,
    count: u32,
) -> Result<(Vec<RowDocument<P>>, usize), RowFault>
    ensures ok { IfOk result (λ r. AreDocumentsAt P.form bytes.now 0 at count r.0.items r.1) }
    ensures bad { result ≡ Err RowFault.BadRow → (ds : List (RowDocument P)) (next : ℕ) → AreDocumentsAt P.form bytes.now 0 at count ds next → ⊥ }
{
    let mut documents = Vec::new(alloc);
    let mut last = 0;
    let mut place = at;
    for _ in 0..count {
        let (document, next) = read_document(alloc, bytes, place, last)?;
        last = document.document;
        place = next;
        documents.push(document)?;
    }
    Ok((documents, place))
}
