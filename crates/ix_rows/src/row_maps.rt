//! The rows of all terms of a kind, split while their documents come.

ghost use Rattle.std.specs.Prelude.{◌≡◌, ◌++◌, OnOk, IfOk, map};
ghost use Rattle.std.specs.FinMap.{empty};
ghost use Rattle.ct_entry.specs.Changes.{spell};
ghost use Rattle.ix_rows.specs.Spelling.{row_key};
ghost use Rattle.ix_rows.specs.RowMaps.{with_posting, row_changes, row_map_changes, seen_row};
ghost use Rattle.ix_rows.specs.Runs.{with_run};

use crate::growing::{GrowingRows, SpeltRow, begun_rows};
use crate::runs::{Run, rows_of_run};
use crate::term_keys::TermKey;
use ct_base::{Memory, Name};
use ct_bytes::put_u32;
use ct_entry::{Kind, put_entry};
use ct_keep::Batch;
use std::alloc::Global;
use std::collections::BTreeMap;
use std::marker::Model;

/// The rows of terms, each term by its bytes as they stand in a key. What it keeps of the documents that came is the bytes of the rows.
#[derive(Drop)]
pub struct TermRows {
    rows: BTreeMap<TermKey, GrowingRows>,
    /// The term that is looked up, in memory that is used again for each.
    sought: TermKey,
}

impl Model for TermRows {
    ghost use Rattle.std.specs.BTreeMap.{IsOrdered};
    ghost use Rattle.std.specs.Ordering.{nat_cmp};
    ghost use Rattle.std.specs.Cmp.Lexicographic.{slice_cmp};
    ghost use Rattle.ix_rows.specs.RowMaps.{TermRowsView, row_map_code, row_map_of};

    ghost Value = { TermRowsView };

    ghost coded = { row_map_code };

    ghost view = { λ m. row_map_of m.rows.entries };

    ghost invariant = { λ m. IsOrdered (slice_cmp nat_cmp) m.rows };
}

/// What stands in the key of a row behind its index.
fn row_key(alloc: Global, term: &[u8], first: u32) -> Result<Vec<u8>, Memory>
    ensures { IfOk result (λ part. part.items ≡ row_key term.now first) }
{
    let mut part = Vec::from_slice(alloc, term)?;
    put_u32(&mut part, first)?;
    Ok(part)
}

/// Adds the changes that put the rows of a term.
fn put_rows(
    alloc: Global,
    batch: &mut Batch,
    kind: Kind,
    index: &Name,
    term: &[u8],
    rows: Vec<SpeltRow>,
) -> Result<(), Memory>
    ensures { OnOk result (batch.new ≡ batch.old ++ spell (row_changes kind index.now term.now (map seen_row rows.items))) }
{
    for row in rows {
        let part = row_key(alloc, term, row.first)?;
        put_entry(alloc, batch, kind, index, &part, row.bytes)?;
    }
    Ok(())
}

impl TermRows {
    /// No terms. It takes no memory.
    pub fn new(alloc: Global) -> TermRows
        ensures { result ≡ empty }
    {
        TermRows {
            rows: BTreeMap::new(alloc),
            sought: TermKey::new(alloc),
        }
    }

    /// A document comes to a term, with the bytes of its places: how many there are, and their steps. The documents of a term come in
    /// rising order; one that isn't greater than the last is passed over.
    ///
    /// Its cost is the logarithm of the number of terms, and the length of these bytes. At an error, which is want of memory, the
    /// map may only be dropped.
    pub fn put(
        &mut self,
        alloc: Global,
        term: &[u8],
        document: u32,
        places: &[u8],
    ) -> Result<(), Memory>
        ensures { OnOk result (self.new ≡ with_posting self.old term.now document places.now) }
    {
        self.sought.set(term)?;
        match self.rows.get_mut(&self.sought) {
            Some(rows) => rows.add(alloc, document, places),
            None => {
                let rows = begun_rows(alloc, document, places)?;
                self.rows.insert(TermKey::of(alloc, term)?, rows)?;
                Ok(())
            }
        }
    }

    /// Documents come to a term, one behind the other, as if each came by itself. The term is looked up once, whatever their number.
    /// At an error, which is want of memory, the map may only be dropped.
    pub fn put_run(&mut self, alloc: Global, term: &[u8], run: &Run) -> Result<(), Memory>
        ensures { OnOk result (self.new ≡ with_run self.old term.now run.now) }
    {
        if run.is_empty() {
            return Ok(());
        }
        self.sought.set(term)?;
        match self.rows.get_mut(&self.sought) {
            Some(rows) => run.add_to(alloc, rows),
            None => {
                let rows = rows_of_run(alloc, run)?;
                self.rows.insert(TermKey::of(alloc, term)?, rows)?;
                Ok(())
            }
        }
    }

    /// Adds the changes that put the rows of all terms, in the order of their keys. No row is copied but the last of each term.
    /// At an error the batch may have some of the changes.
    pub fn into_changes(
        self,
        alloc: Global,
        batch: &mut Batch,
        kind: Kind,
        index: &Name,
    ) -> Result<(), Memory>
        ensures { OnOk result (batch.new ≡ batch.old ++ spell (row_map_changes kind index.now self)) }
    {
        for (term, rows) in self.rows {
            let rows = rows.into_rows(alloc)?;
            put_rows(alloc, batch, kind, index, term.as_slice(), rows)?;
        }
        Ok(())
    }
}
