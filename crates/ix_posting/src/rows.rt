//! Rows of postings.

ghost use Rattle.std.specs.Prelude.{◌≡◌, List, IfOk, Err};
ghost use Rattle.ix_posting.specs.Rows.{IsPostingRowOf, posting_bytes_of};

use crate::faults::RowFault;
use crate::places::Place;
use crate::reading::read_documents;
use crate::writing::put_documents;
use ct_base::{Listed, Memory};
use ct_bytes::{put_varint, read_varint};
use std::alloc::Global;
use std::marker::Model;

/// A document of a row, with the places at which what the row stands for is in it: positions of a word, or pairs of the
/// positions at which a section begins and ends.
#[derive(Clone, Debug, Drop)]
pub struct RowDocument<P> {
    /// Its number, at least 1 in a row.
    pub document: u32,
    /// At least one in a row, each after the one before it.
    pub places: Listed<P>,
}

/// Postings of one token or section, seen as the list of its documents: at least one, in rising order, each with at
/// least one place, in rising order. All numbers, and how many places a document has, are below 2^32. Positions are at
/// least 1; pairs rise by first and then by last, and each first is at least 1 and at most its last.
#[derive(Debug, Drop)]
pub struct Row<P: Place> {
    documents: Vec<RowDocument<P>>,
}

impl<P: Place> Model for Row<P> {
    ghost use Rattle.std.specs.Prelude.{List};
    ghost use Rattle.ix_posting.specs.declared.rows.RowDocument.{RowDocument};

    ghost Value = { List (RowDocument P) };

    ghost use Rattle.ix_posting.specs.Rows.{IsPostingRowOf};

    ghost view = { λ r. r.documents.items };

    ghost invariant = { λ r. IsPostingRowOf P.form r.documents.items };
}

impl<P: Place> Row<P> {
    ghost use Rattle.ix_posting.specs.declared.rows.RowDocument.{RowDocument};

    /// The row of these documents.
    pub fn of(documents: Vec<RowDocument<P>>) -> Row<P>
        requires { IsPostingRowOf P.form documents.items }
        ensures { result ≡ documents.items }
    {
        Row { documents }
    }

    /// The documents, in rising order: at least one.
    pub fn documents(&self) -> &[RowDocument<P>]
        ensures documents { result.now ≡ self.now }
        ensures row { IsPostingRowOf P.form self.now }
    {
        self.documents.as_slice()
    }

    /// The bytes of the row, which spell no other row of such places.
    ///
    /// They are varints: how many documents there are; and of each its number less the one before, how many places
    /// it has, and each place. A position is itself less the one before it; a pair is its first less the first of the
    /// pair before it, and its last less its first. 0 stands before the first document, and before the first place of each.
    pub fn encode(&self, alloc: Global) -> Result<Vec<u8>, Memory>
        ensures { IfOk result (λ v. v.items ≡ posting_bytes_of P.form self.now) }
    {
        let mut out = Vec::new(alloc);
        put_varint(&mut out, self.documents.len() as u32)?;
        put_documents(&mut out, self.documents.as_slice())?;
        Ok(out)
    }

    /// The row that the bytes spell, with no byte after it.
    ///
    /// BadRow where they spell none: each number has one spelling, no count is 0, each document and each place comes
    /// after the one before it, and all numbers are below 2^32. It goes over the bytes once, and takes memory only for what
    /// it has read: a count that the bytes claim takes none.
    pub fn decode(alloc: Global, bytes: &[u8]) -> Result<Row<P>, RowFault>
        ensures row { IfOk result (λ r. posting_bytes_of P.form r ≡ bytes.now) }
        ensures rules { IfOk result (λ r. IsPostingRowOf P.form r) }
        ensures bad { result ≡ Err RowFault.BadRow → (row : List (RowDocument P)) → IsPostingRowOf P.form row → posting_bytes_of P.form row ≡ bytes.now → ⊥ }
        ensures read_back { (row : List (RowDocument P)) → IsPostingRowOf P.form row → posting_bytes_of P.form row ≡ bytes.now → IfOk result (λ r. r ≡ row) }
    {
        let Some((count, start)) = read_varint(bytes, 0) else {
            return Err(RowFault::BadRow);
        };
        let (documents, end) = read_documents(alloc, bytes, start, count)?;
        if count == 0 || end != bytes.len() {
            return Err(RowFault::BadRow);
        }
        Ok(Row { documents })
    }
}
