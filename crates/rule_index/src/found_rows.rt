//! Rows that are found several times, each of them once.

ghost use Rattle.std.specs.Prelude.{◌≡◌, IfOk, OnOk, map};
ghost use Rattle.std.specs.List.{list_any};
ghost use Rattle.std.specs.Ordering.{int_eq};
ghost use Rattle.std.specs.FinMap.{insert, empty, entries};
ghost use Rattle.rule_index.specs.Matching.{AddsRows};

use ct_base::{Memory, RowKey};
use std::alloc::Global;
use std::collections::BTreeMap;
use std::marker::Model;

/// Rows, seen as a finite map in order of their keys.
#[derive(Drop)]
pub(crate) struct FoundRows {
    rows: BTreeMap<i64, ()>,
}

impl Model for FoundRows {
    ghost use Rattle.std.specs.Ordering.{int_cmp};
    ghost use Rattle.std.specs.BTreeMap.{IsOrdered};
    ghost use Rattle.std.specs.FinMap.{FinMap, from_sorted, code};
    ghost use Rattle.std.specs.Coded.{coded_ℤ};
    ghost use base.Stored.{coded_unit};

    ghost Value = { FinMap int_cmp (Unit {0}) };

    ghost coded = { code coded_ℤ coded_unit };

    ghost view = { λ s. from_sorted s.rows.entries };

    ghost invariant = { λ s. IsOrdered int_cmp s.rows };
}

impl FoundRows {
    /// No rows. It takes no memory.
    pub(crate) fn new(alloc: Global) -> FoundRows
        ensures { result ≡ empty }
    {
        FoundRows {
            rows: BTreeMap::new(alloc),
        }
    }

    /// Adds a row. Its cost is the logarithm of the number of rows.
    pub(crate) fn put(&mut self, row: RowKey) -> Result<(), Memory>
        ensures { OnOk result (self.new ≡ insert self.old row.0 tt) }
    {
        self.rows.insert(row.0, ())?;
        Ok(())
    }

    /// Adds rows. Its cost is a logarithm for each.
    pub(crate) fn put_all(&mut self, rows: &[RowKey]) -> Result<(), Memory>
        ensures { OnOk result (AddsRows self.old self.new (λ r. list_any (int_eq r) (map (λ k. k.0) rows.now))) }
    {
        let mut rest = rows;
        'each: while let Some((row, later)) = rest.split_first() {
            self.put(*row)?;
            rest = later;
        }
        Ok(())
    }

    /// The rows, in order of their keys.
    pub(crate) fn into_keys(self, alloc: Global) -> Result<Vec<RowKey>, Memory>
        ensures { IfOk result (λ keys. map (λ r. r.0) keys.items ≡ map (λ e. e.0) (entries self)) }
    {
        let mut keys = Vec::new(alloc);
        for (key, _nothing) in self.rows {
            keys.push(RowKey(key))?;
        }
        Ok(keys)
    }
}
