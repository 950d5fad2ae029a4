//! Rows that are kept as their bytes until they are needed.

ghost use Rattle.std.specs.Prelude.{◌≡◌, ◌<◌, [], List, length, get_or, IfOk, IfSome, IfNone, Some};
ghost use Rattle.ix_posting.specs.Rows.{IsPostingRowOf, posting_bytes_of};
ghost use Rattle.ix_posting.specs.declared.rows.RowDocument.{RowDocument};
ghost use Rattle.ix_posting.specs.Encoded.{IsMereRow, SpeltRow, one_row};
ghost use Rattle.ix_posting.specs.Passed.{EndsAt, NoneBehind, last_number};
ghost use Rattle.ix_posting.specs.RowPlaces.{first_number};

use crate::faults::RowFault;
use crate::passing::pass_documents;
use crate::places::Place;
use crate::reading::read_head;
use crate::rows::Row;
use ct_base::Memory;
use ct_bytes::read_varint;
use std::alloc::Global;
use std::marker::{Model, PhantomData};
use std::rc::Rc;

/// A row as its bytes. Contracts see it as the documents of the row.
#[derive(Drop)]
pub struct EncodedRow<P: Place> {
    bytes: Vec<u8>,
    /// The number of its last document.
    last: u32,
    places: PhantomData<P>,
    ghost row: { SpeltRow P.form bytes.items } by { one_row P.form P.lawful bytes.items },
}

impl<P: Place> Model for EncodedRow<P> {
    ghost use Rattle.std.specs.Prelude.{◌≡◌, List};
    ghost use Rattle.ix_posting.specs.Passed.{last_number};
    ghost use Rattle.ix_posting.specs.declared.rows.RowDocument.{RowDocument};

    ghost Value = { List (RowDocument P) };

    ghost view = { λ r. r.row.0 };

    ghost invariant = { λ r. r.last ≡ last_number 0 r.row.0 };
}

impl<P: Place> EncodedRow<P> {
    /// The row that these bytes spell, without a copy; None where they spell none. It goes over them once, and takes no memory.
    pub fn of(bytes: Vec<u8>) -> Option<EncodedRow<P>>
        ensures row { IfSome result (λ r. IsPostingRowOf P.form r × (posting_bytes_of P.form r ≡ bytes.items)) }
        ensures one { IfSome result (λ r. (row : List (RowDocument P)) → IsPostingRowOf P.form row → posting_bytes_of P.form row ≡ bytes.items → r ≡ row) }
        ensures none { IfNone result ((row : List (RowDocument P)) → IsPostingRowOf P.form row → posting_bytes_of P.form row ≡ bytes.items → ⊥) }
    {
        let Some(last) = last_in::<P>(bytes.as_slice()) else {
            return None;
        };
        Some(EncodedRow {
            bytes,
            last,
            places: PhantomData,
        })
    }

    /// The row, decoded. Its cost is the length of its bytes.
    pub fn decode(&self, alloc: Global) -> Result<Row<P>, Memory>
        ensures { IfOk result (λ row. row ≡ self.now) }
    {
        match Row::decode(alloc, self.bytes.as_slice()) {
            Ok(row) => Ok(row),
            Err(RowFault::BadRow) => unreachable!(),
            Err(RowFault::Memory) => Err(Memory),
        }
    }

    /// The bytes of the row.
    pub(crate) fn bytes(&self) -> &[u8]
        ensures spelt { posting_bytes_of P.form self.now ≡ result.now }
        ensures row { IsMereRow P.form self.now }
    {
        self.bytes.as_slice()
    }

    /// The number of its first document.
    pub fn first(&self) -> u32
        ensures { first_number self.now ≡ Some result }
    {
        let bytes = self.bytes();
        let Some((_, start)) = read_varint(bytes, 0) else {
            unreachable!();
        };
        let Some(head) = read_head(bytes, start, 0) else {
            unreachable!();
        };
        head.document
    }

    /// The number of its last document.
    pub fn last(&self) -> u32
        ensures value { result ≡ last_number 0 self.now }
        ensures each { NoneBehind result self.now }
    {
        self.last
    }
}

/// The number of the last document of the row that bytes spell; None where they spell none.
fn last_in<P: Place>(bytes: &[u8]) -> Option<u32>
    ensures some { IfSome result (λ last. EndsAt P.form bytes.now last) }
    ensures none { IfNone result ((row : List (RowDocument P)) → IsPostingRowOf P.form row → posting_bytes_of P.form row ≡ bytes.now → ⊥) }
{
    let Some((count, start)) = read_varint(bytes, 0) else {
        return None;
    };
    let Some((last, end)) = pass_documents::<P>(bytes, start, count) else {
        return None;
    };
    if count == 0 || end != bytes.len() {
        return None;
    }
    Some(last)
}

/// The rows of one token or section, in rising order of their documents. Contracts see them as the documents of each row.
/// Copies of them share their memory.
#[derive(Drop)]
pub struct EncodedRows<P: Place> {
    rows: Rc<Vec<EncodedRow<P>>>,
}

impl<P: Place> Model for EncodedRows<P> {
    ghost use Rattle.std.specs.Prelude.{List};
    ghost use Rattle.ix_posting.specs.declared.rows.RowDocument.{RowDocument};

    ghost Value = { List (List (RowDocument P)) };

    ghost view = { λ r. r.rows.value.items };
}

impl<P: Place> EncodedRows<P> {
    /// These rows, without a copy of their bytes.
    pub fn of(alloc: Global, rows: Vec<EncodedRow<P>>) -> Result<EncodedRows<P>, Memory>
        ensures { IfOk result (λ r. r ≡ rows.items) }
    {
        Ok(EncodedRows {
            rows: Rc::new(alloc, rows)?,
        })
    }

    /// The rows in their order.
    pub fn as_slice(&self) -> &[EncodedRow<P>]
        ensures { result.now ≡ self.now }
    {
        self.rows.as_ref().as_slice()
    }

    /// The bytes of a row.
    pub(crate) fn bytes_at(&self, index: usize) -> &[u8]
        requires { index < length self.now }
        ensures spelt { posting_bytes_of P.form (get_or self.now index []) ≡ result.now }
        ensures row { IsMereRow P.form (get_or self.now index []) }
    {
        let rows = self.as_slice();
        rows[index].bytes()
    }

    /// The number of the last document of a row.
    pub fn last_at(&self, index: usize) -> u32
        requires { index < length self.now }
        ensures { NoneBehind result (get_or self.now index []) }
    {
        let rows = self.as_slice();
        rows[index].last()
    }

    /// The same rows once more. It copies none of them.
    pub fn share(&self) -> Result<EncodedRows<P>, Memory>
        ensures { IfOk result (λ r. r ≡ self.now) }
    {
        Ok(EncodedRows {
            rows: self.rows.clone()?,
        })
    }
}
