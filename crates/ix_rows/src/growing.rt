//! The rows of one term, split while its documents come.

ghost use Rattle.std.specs.Prelude.{◌≡◌, ◌<◌, IfOk, OnOk, map};
ghost use Rattle.ix_rows.specs.Growing.{nothing_yet, growing_row, grown_rows, row_has_room, with_closed_row, with_room, with_last_document, with_grown_document};
ghost use Rattle.ix_rows.specs.RowMaps.{seen_row};

use ct_base::Memory;
use ct_bytes::{put_varint, varint_len};
use std::alloc::Global;
use std::marker::Model;

/// How many bytes a row of several documents has at most.
const ROW_BYTES_LIMIT: usize = 3500;

/// A row as bytes, with its first document, by which its key ends.
#[derive(Debug, Drop)]
pub(crate) struct SpeltRow {
    pub(crate) first: u32,
    pub(crate) bytes: Vec<u8>,
}

/// The rows of a term, whose documents come in rising order. It keeps the bytes of the rows, and nothing else of what came.
#[derive(Debug, Drop)]
pub(crate) struct GrowingRows {
    full: Vec<SpeltRow>,
    first: u32,
    last: u32,
    count: u32,
    body: Vec<u8>,
}

impl Model for GrowingRows {
    ghost use Rattle.std.specs.Prelude.{◌≤◌, map};
    ghost use Rattle.ix_rows.specs.Growing.{Growing, growing_code};

    ghost Value = { Growing };

    ghost coded = { growing_code };

    ghost view = { λ g. record { full = map (λ r. (r.first, r.bytes.items)) g.full.items; first = g.first; last = g.last; count = g.count; body = g.body.items } };

    ghost invariant = { λ g. g.count ≤ g.last };
}

impl GrowingRows {
    /// No rows. It takes no memory.
    pub(crate) fn new(alloc: Global) -> GrowingRows
        ensures { result ≡ nothing_yet }
    {
        GrowingRows {
            full: Vec::new(alloc),
            first: 0,
            last: 0,
            count: 0,
            body: Vec::new(alloc),
        }
    }

    /// The bytes of the row that grows.
    fn row_bytes(&self, alloc: Global) -> Result<Vec<u8>, Memory>
        ensures { IfOk result (λ bytes. bytes.items ≡ (growing_row self.now).1) }
    {
        let mut bytes = Vec::new(alloc);
        put_varint(&mut bytes, self.count)?;
        bytes.extend_from_slice(self.body.as_slice())?;
        Ok(bytes)
    }

    /// Closes the row that grows: it joins the full ones, and the next begins empty, in the same memory.
    fn close(&mut self, alloc: Global) -> Result<(), Memory>
        ensures { OnOk result (self.new ≡ with_closed_row self.old) }
    {
        let bytes = self.row_bytes(alloc)?;
        self.full.push(SpeltRow {
            first: self.first,
            bytes,
        })?;
        self.first = 0;
        self.last = 0;
        self.count = 0;
        self.body.clear();
        Ok(())
    }

    /// Whether the row that grows would have at most so many bytes with one document more, whose places have these bytes.
    #[tactic(auto, using(ct_bytes::specs::laws::Varints::varint_length))]
    fn has_room(&self, document: u32, places: &[u8]) -> bool
        requires { self.now.last < document }
        ensures { result ≡ row_has_room self.now document places.now }
    {
        let head = varint_len(self.count + 1) + varint_len(document.saturating_sub(self.last));
        head.saturating_add(self.body.len())
            .saturating_add(places.len())
            <= ROW_BYTES_LIMIT
    }

    /// Closes the row that grows where it has a document, and no room for this one.
    fn make_room(&mut self, alloc: Global, document: u32, places: &[u8]) -> Result<(), Memory>
        requires { self.old.last < document }
        ensures room { OnOk result (self.new ≡ with_room self.old document places.now) }
        ensures before { OnOk result (self.new.last < document) }
    {
        if self.count == 0 || self.has_room(document, places) {
            return Ok(());
        }
        self.close(alloc)
    }

    /// The row that grows has this document behind its last one.
    fn take(&mut self, document: u32, places: &[u8]) -> Result<(), Memory>
        requires { self.old.last < document }
        ensures { OnOk result (self.new ≡ with_last_document self.old document places.now) }
    {
        put_varint(&mut self.body, document.saturating_sub(self.last))?;
        self.body.extend_from_slice(places)?;
        if self.count == 0 {
            self.first = document;
        }
        self.count += 1;
        self.last = document;
        Ok(())
    }

    /// A document comes, with the bytes of its places: how many there are, and their steps. One that isn't greater than the last one is
    /// passed over. Its cost is the length of these bytes, and now and then the length of a row.
    pub(crate) fn add(&mut self, alloc: Global, document: u32, places: &[u8]) -> Result<(), Memory>
        ensures { OnOk result (self.new ≡ with_grown_document self.old document places.now) }
    {
        if document <= self.last {
            return Ok(());
        }
        self.make_room(alloc, document, places)?;
        self.take(document, places)
    }

    /// Closes the row that grows, if it has a document.
    fn finish(&mut self, alloc: Global) -> Result<(), Memory>
        ensures { OnOk result (self.new.full ≡ grown_rows self.old) }
    {
        if self.count == 0 {
            return Ok(());
        }
        self.close(alloc)
    }

    /// All rows, in the order of their documents. No row is copied but the last.
    pub(crate) fn into_rows(self, alloc: Global) -> Result<Vec<SpeltRow>, Memory>
        ensures { IfOk result (λ rows. map seen_row rows.items ≡ grown_rows self) }
    {
        let mut rows = self;
        rows.finish(alloc)?;
        Ok(rows.full)
    }
}

/// The rows of a term that has one document so far.
pub(crate) fn begun_rows(alloc: Global, document: u32, places: &[u8]) -> Result<GrowingRows, Memory>
    ensures { IfOk result (λ rows. rows ≡ with_grown_document nothing_yet document places.now) }
{
    let mut rows = GrowingRows::new(alloc);
    rows.add(alloc, document, places)?;
    Ok(rows)
}
