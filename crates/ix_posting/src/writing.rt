//! The documents of a row, written as bytes.

ghost use Rattle.std.specs.Prelude.{◌≡◌, ◌++◌, ◌<◌, ◌^◌, length, OnOk};
ghost use Rattle.ix_posting.specs.Rows.{DocumentsRise, document_bytes, documents_bytes};

use crate::places::{Place, put_places};
use crate::rows::RowDocument;
use ct_base::Memory;
use ct_bytes::put_varint;

/// Puts a document after `before`.
fn put_document<P: Place>(
    out: &mut Vec<u8>,
    before: u32,
    document: &RowDocument<P>,
) -> Result<(), Memory>
    requires { length document.now.places < 2 ^ 32 }
    ensures { OnOk result (out.new.items ≡ out.old.items ++ document_bytes P.form before document.now) }
{
    put_varint(out, document.document.saturating_sub(before))?;
    put_places(out, document.places.as_slice())
}

/// Puts documents, each after the one before it.
pub(crate) fn put_documents<P: Place>(
    out: &mut Vec<u8>,
    documents: &[RowDocument<P>],
) -> Result<(), Memory>
    requires { DocumentsRise P.form 0 documents.now }
    ensures { OnOk result (out.new.items ≡ out.old.items ++ documents_bytes P.form 0 documents.now) }
{
    let mut last = 0;
    let mut rest = documents;
    while let [first, later @ ..] = rest {
        put_document(out, last, first)?;
        last = first.document;
        rest = later;
    }
    Ok(())
}
