//! The documents of a token or a section that are left, of which the places are decoded one document at a time.

ghost use Rattle.std.specs.Prelude.{◌≡◌, [], ◌≤◌, ◌<◌, drop, get_or, length, IfOk, IfSome, OnOk};
ghost use Rattle.ix_posting.specs.Rows.{DocumentsRise};
ghost use Rattle.ix_posting.specs.Lists.{posting_list};
ghost use Rattle.ix_spans.specs.Rising.{Rising};
ghost use Rattle.q_tree.specs.Documents.{put_all};
ghost use Rattle.ix_lists.specs.Documents.{from_on, from_place, left_in, places_at, first_places, first_document, IsShown};

use ct_base::{Listed, Memory};
use ix_posting::{EncodedRow, EncodedRows, Place, Row, RowPlace};
use std::alloc::Global;
use std::marker::Model;

/// The first document of a row from a place on that doesn't stand before `to`, if there is one.
fn seek_in_row<P: Place>(place: RowPlace<P>, to: u32) -> Option<RowPlace<P>>
    ensures left { from_place result ≡ from_on to place }
    ensures some { IfSome result (λ p. 0 < length p) }
{
    let mut here = place;
    'documents: loop {
        let document = here.document();
        if document >= to {
            return Some(here);
        }
        let Some(next) = here.next() else {
            return None;
        };
        here = next;
    }
}

/// The first document of a row that doesn't stand before `to`, if there is one. A row that ends before it isn't gone through.
fn begin_row<P: Place>(
    rows: &EncodedRows<P>,
    index: usize,
    to: u32,
) -> Result<Option<RowPlace<P>>, Memory>
    requires { index < length rows.now }
    ensures left { IfOk result (λ p. from_place p ≡ from_on to (get_or rows.now index [])) }
    ensures some { IfOk result (λ p. IfSome p (λ place. 0 < length place)) }
{
    let last = rows.last_at(index);
    if last < to {
        return Ok(None);
    }
    let place = RowPlace::first_in(rows, index)?;
    Ok(seek_in_row(place, to))
}

/// How far the rows are read: a document of a row, if there is one, and how many rows were taken.
#[derive(Drop)]
struct Progress<P: Place> {
    place: Option<RowPlace<P>>,
    taken: usize,
}

/// The first document that doesn't stand before `to`, among rows of which so many were taken. It goes through the documents of no row that
/// ends before it.
fn seek<P: Place>(rows: &EncodedRows<P>, taken: usize, to: u32) -> Result<Progress<P>, Memory>
    requires { taken ≤ length rows.now }
    ensures taken { IfOk result (λ p. p.taken ≤ length rows.now) }
    ensures left { IfOk result (λ p. left_in rows.now p.place p.taken ≡ from_on to (posting_list (drop taken rows.now))) }
    ensures shown { IfOk result (λ p. IsShown p.place (drop p.taken rows.now)) }
{
    let count = rows.as_slice().len();
    for i in taken..count {
        let place = begin_row(rows, i, to)?;
        match place {
            Some(place) => {
                return Ok(Progress {
                    place: Some(place),
                    taken: i + 1,
                });
            }
            None => {}
        }
    }
    Ok(Progress {
        place: None,
        taken: count,
    })
}

/// The same from a place in a row on, if there is one, and behind that row.
fn seek_from<P: Place>(
    rows: &EncodedRows<P>,
    place: Option<RowPlace<P>>,
    taken: usize,
    to: u32,
) -> Result<Progress<P>, Memory>
    requires { taken ≤ length rows.now }
    ensures taken { IfOk result (λ p. p.taken ≤ length rows.now) }
    ensures left { IfOk result (λ p. left_in rows.now p.place p.taken ≡ from_on to (left_in rows.now place taken)) }
    ensures shown { IfOk result (λ p. IsShown p.place (drop p.taken rows.now)) }
{
    let Some(place) = place else {
        return seek(rows, taken, to);
    };
    match seek_in_row(place, to) {
        Some(place) => Ok(Progress {
            place: Some(place),
            taken,
        }),
        None => seek(rows, taken, to),
    }
}

/// The same place once more. It copies nothing.
fn shared<P: Place>(place: &Option<RowPlace<P>>) -> Result<Option<RowPlace<P>>, Memory>
    ensures { IfOk result (λ p. from_place p ≡ from_place place.now) }
{
    match place {
        None => Ok(None),
        Some(place) => Ok(Some(place.share()?)),
    }
}

/// Leaves one place for another.
fn go_to<P: Place>(place: &mut Progress<P>, other: Progress<P>)
    ensures { place.new ≡ other }
{
    *place = other;
}

/// The places of the first document, if that is the one.
fn first_places<P: Place>(
    alloc: Global,
    place: &Option<RowPlace<P>>,
    document: u32,
) -> Result<Vec<P>, Memory>
    ensures { IfOk result (λ v. v.items ≡ first_places (from_place place.now) document) }
{
    match place {
        None => Ok(Vec::new(alloc)),
        Some(place) => {
            if place.document() == document {
                place.places(alloc)
            } else {
                Ok(Vec::new(alloc))
            }
        }
    }
}

/// The number of the first document.
fn first_document<P: Place>(place: &Option<RowPlace<P>>) -> Option<u32>
    ensures { result ≡ first_document (from_place place.now) }
{
    match place {
        None => None,
        Some(place) => Some(place.document()),
    }
}

/// The documents of a token or a section that are left, in rising order. Rows that end before a document that is asked for are passed
/// as they are, and the places of a document are decoded only where they are asked for.
#[derive(Drop)]
pub struct Postings<P: Place> {
    rows: EncodedRows<P>,
    place: Progress<P>,
}

impl<P: Place> Model for Postings<P> {
    ghost use Rattle.std.specs.Prelude.{List, length, ◌≤◌};
    ghost use Rattle.ix_posting.specs.declared.rows.RowDocument.{RowDocument};
    ghost use Rattle.ix_posting.specs.Rows.{DocumentsRise};
    ghost use Rattle.ix_lists.specs.Documents.{left_in};

    ghost Value = { List (RowDocument P) };

    ghost view = { λ p. left_in p.rows p.place.place p.place.taken };

    ghost invariant = { λ p. (p.place.taken ≤ length p.rows) × DocumentsRise P.form 0 (left_in p.rows p.place.place p.place.taken) };
}

impl<P: Place> Postings<P> {
    /// All documents of these rows.
    pub fn of(rows: EncodedRows<P>) -> Postings<P>
        requires { DocumentsRise P.form 0 (posting_list rows) }
        ensures { result ≡ posting_list rows }
    {
        Postings {
            rows,
            place: Progress {
                place: None,
                taken: 0,
            },
        }
    }

    /// The documents of one row. Its cost is the length of the row.
    pub fn of_row(alloc: Global, row: Row<P>) -> Result<Postings<P>, Memory>
        ensures { IfOk result (λ p. p ≡ row) }
    {
        let bytes = row.encode(alloc)?;
        let Some(encoded) = EncodedRow::of(bytes) else {
            unreachable!();
        };
        let mut rows = Vec::new(alloc);
        rows.push(encoded)?;
        Ok(Postings::of(EncodedRows::of(alloc, rows)?))
    }

    /// Passes the documents before `to`, and gives the first that is left; None where none is. It goes through the documents of the present
    /// row and of the one that has such a document, and decodes no place; after an error it may only be dropped.
    pub fn skip(&mut self, to: u32) -> Result<Option<u32>, Memory>
        ensures left { OnOk result (self.new ≡ from_on to self.old) }
        ensures first { IfOk result (λ first. first ≡ first_document self.new) }
        ensures rise { OnOk result (DocumentsRise P.form 0 self.new) }
    {
        let here = self.place.place.take();
        let place = seek_from(&self.rows, here, self.place.taken, to)?;
        let first = first_document(&place.place);
        go_to(&mut self.place, place);
        Ok(first)
    }

    /// The place of a document, or of the first behind it.
    fn place_of(&self, document: u32) -> Result<Progress<P>, Memory>
        ensures places { IfOk result (λ p. first_places (from_place p.place) document ≡ places_at self.now document) }
        ensures rise { IfOk result (λ _. DocumentsRise P.form 0 self.now) }
    {
        let here = shared(&self.place.place)?;
        let found = seek_from(&self.rows, here, self.place.taken, document)?;
        Ok(found)
    }

    /// The places in a document. Those of no other document are decoded.
    pub fn places_at(&self, alloc: Global, document: u32) -> Result<Listed<P>, Memory>
        ensures { IfOk result (λ v. v ≡ places_at self.now document) }
    {
        let found = self.place_of(document)?;
        Ok(Listed::of(first_places(alloc, &found.place, document)?))
    }
}

impl Postings<u32> {
    /// The positions in a document, rising. Those of no other document are decoded.
    pub fn positions_at(&self, alloc: Global, document: u32) -> Result<Vec<u32>, Memory>
        ensures positions { IfOk result (λ v. v.items ≡ put_all (places_at self.now document) []) }
        ensures rise { IfOk result (λ v. Rising v.items) }
    {
        let found = self.place_of(document)?;
        first_places(alloc, &found.place, document)
    }
}
