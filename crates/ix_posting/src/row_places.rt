//! Documents of a row one after the other, whose places are decoded only where they are asked for.

ghost use Rattle.std.specs.Prelude.{◌≡◌, ◌<◌, [], length, get_or, IfOk, IfSome, IfNone, Some};
ghost use Rattle.ix_posting.specs.RowPlaces.{StandsFrom, one_from, behind_first, first_number, places_of_first};
ghost use Rattle.ix_posting.specs.Rows.{posting_bytes_of};

use crate::encoded::EncodedRows;
use crate::faults::RowFault;
use crate::passing::pass_places;
use crate::places::{Place, read_places};
use crate::reading::{Head, read_head};
use ct_base::Memory;
use ct_bytes::read_varint;
use std::alloc::Global;
use std::marker::Model;

/// A document of a row. Contracts see it as this document and those of the row behind it. It shares the memory of the rows.
#[derive(Drop)]
pub struct RowPlace<P: Place> {
    rows: EncodedRows<P>,
    index: usize,
    /// The number of the document, how many places it has, and where they begin.
    head: Head,
    /// How many documents of the row stand behind it.
    left: u32,
    ghost from: { StandsFrom P.form (posting_bytes_of P.form (get_or rows index [])) head left } by { one_from P.form P.lawful (posting_bytes_of P.form (get_or rows index [])) head left },
}

impl<P: Place> Model for RowPlace<P> {
    ghost use Rattle.std.specs.Prelude.{List, length, ◌<◌};
    ghost use Rattle.ix_posting.specs.declared.rows.RowDocument.{RowDocument};

    ghost Value = { List (RowDocument P) };

    ghost view = { λ p. p.from.0 };

    ghost invariant = { λ p. p.index < length p.rows };
}

impl<P: Place> RowPlace<P> {
    /// The first document of a row. It decodes no place.
    pub fn first_in(rows: &EncodedRows<P>, index: usize) -> Result<RowPlace<P>, Memory>
        requires { index < length rows.now }
        ensures { IfOk result (λ p. p ≡ get_or rows.now index []) }
    {
        let shared = rows.share()?;
        let bytes = rows.bytes_at(index);
        let Some((count, start)) = read_varint(bytes, 0) else {
            unreachable!();
        };
        let Some(head) = read_head(bytes, start, 0) else {
            unreachable!();
        };
        Ok(RowPlace {
            rows: shared,
            index,
            head,
            left: count.saturating_sub(1),
        })
    }

    /// The number of the document.
    pub fn document(&self) -> u32
        ensures { Some result ≡ first_number self.now }
    {
        self.head.document
    }

    /// The next document of the row, if there is one. It goes over the bytes of the places, and decodes none.
    pub fn next(self) -> Option<RowPlace<P>>
        ensures some { IfSome result (λ p. p ≡ behind_first self) }
        ensures none { IfNone result (behind_first self ≡ []) }
    {
        if self.left == 0 {
            return None;
        }
        let bytes = self.rows.bytes_at(self.index);
        let Some(next) = pass_places::<P>(bytes, self.head.next, self.head.count) else {
            unreachable!();
        };
        let Some(head) = read_head(bytes, next, self.head.document) else {
            unreachable!();
        };
        Some(RowPlace {
            rows: self.rows,
            index: self.index,
            head,
            left: self.left - 1,
        })
    }

    /// The places of the document.
    pub fn places(&self, alloc: Global) -> Result<Vec<P>, Memory>
        ensures { IfOk result (λ v. v.items ≡ places_of_first self.now) }
    {
        let bytes = self.rows.bytes_at(self.index);
        match read_places(alloc, bytes, self.head.next, self.head.count) {
            Ok((places, _)) => Ok(places),
            Err(RowFault::BadRow) => unreachable!(),
            Err(RowFault::Memory) => Err(Memory),
        }
    }

    /// The same document once more. It copies nothing.
    pub fn share(&self) -> Result<RowPlace<P>, Memory>
        ensures { IfOk result (λ p. p ≡ self.now) }
    {
        Ok(RowPlace {
            rows: self.rows.share()?,
            index: self.index,
            head: self.head,
            left: self.left,
        })
    }
}
