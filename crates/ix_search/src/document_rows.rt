//! Rows of documents.

ghost use Rattle.std.specs.Prelude.{◌≡◌, OnOk};
ghost use Rattle.std.specs.Option.{option_map};
ghost use Rattle.std.specs.FinMap.{get, insert, empty};

use ct_base::{DocId, Memory, RowKey};
use std::alloc::Global;
use std::collections::BTreeMap;
use std::marker::Model;

/// The rows of documents, seen as a finite map in order of the documents' numbers.
#[derive(Drop)]
pub(crate) struct DocumentRows {
    rows: BTreeMap<u32, i64>,
}

impl Model for DocumentRows {
    ghost use Rattle.std.specs.Prelude.{ℤ};
    ghost use Rattle.std.specs.Ordering.{nat_cmp};
    ghost use Rattle.std.specs.BTreeMap.{IsOrdered};
    ghost use Rattle.std.specs.FinMap.{FinMap, from_sorted, code};
    ghost use Rattle.std.specs.Coded.{coded_ℕ, coded_ℤ};

    ghost Value = { FinMap nat_cmp ℤ };

    ghost coded = { code coded_ℕ coded_ℤ };

    ghost view = { λ s. from_sorted s.rows.entries };

    ghost invariant = { λ s. IsOrdered nat_cmp s.rows };
}

impl DocumentRows {
    /// No documents. It takes no memory.
    pub(crate) fn new(alloc: Global) -> DocumentRows
        ensures { result ≡ empty }
    {
        DocumentRows {
            rows: BTreeMap::new(alloc),
        }
    }

    /// Gives a document a row. Its cost is the logarithm of the number of documents.
    pub(crate) fn put(&mut self, document: DocId, row: RowKey) -> Result<(), Memory>
        ensures { OnOk result (self.new ≡ insert self.old document.0 row.0) }
    {
        self.rows.insert(document.0, row.0)?;
        Ok(())
    }

    /// The row of a document, if it has one. Its cost is the logarithm of the number of documents.
    pub(crate) fn row_of(&self, document: DocId) -> Option<RowKey>
        ensures { option_map (λ r. r.0) result ≡ get self.now document.0 }
    {
        match self.rows.get(&document.0) {
            Some(key) => Some(RowKey(*key)),
            None => None,
        }
    }
}
