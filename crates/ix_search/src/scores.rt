//! Scores of rows.

ghost use Rattle.std.specs.Prelude.{◌≡◌, IfOk, OnOk};
ghost use Rattle.std.specs.FinMap.{insert, empty, entries};
ghost use Rattle.ix_search.specs.Hits.{hit_rows};

use crate::hits::Hit;
use ct_base::{Memory, RowKey};
use std::alloc::Global;
use std::collections::BTreeMap;
use std::marker::Model;

/// The scores of rows, seen as a finite map in order of the rows' keys.
#[derive(Drop)]
pub(crate) struct Scores {
    scores: BTreeMap<i64, u32>,
}

impl Model for Scores {
    ghost use Rattle.std.specs.Prelude.{ℕ};
    ghost use Rattle.std.specs.Ordering.{int_cmp};
    ghost use Rattle.std.specs.BTreeMap.{IsOrdered};
    ghost use Rattle.std.specs.FinMap.{FinMap, from_sorted, code};
    ghost use Rattle.std.specs.Coded.{coded_ℕ, coded_ℤ};

    ghost Value = { FinMap int_cmp ℕ };

    ghost coded = { code coded_ℤ coded_ℕ };

    ghost view = { λ s. from_sorted s.scores.entries };

    ghost invariant = { λ s. IsOrdered int_cmp s.scores };
}

impl Scores {
    /// No rows. It takes no memory.
    pub(crate) fn new(alloc: Global) -> Scores
        ensures { result ≡ empty }
    {
        Scores {
            scores: BTreeMap::new(alloc),
        }
    }

    /// Gives a row a score. Its cost is the logarithm of the number of rows.
    pub(crate) fn put(&mut self, row: RowKey, score: u32) -> Result<(), Memory>
        ensures { OnOk result (self.new ≡ insert self.old row.0 score) }
    {
        self.scores.insert(row.0, score)?;
        Ok(())
    }

    /// The rows with their scores, in order of their keys.
    pub(crate) fn into_hits(self, alloc: Global) -> Result<Vec<Hit>, Memory>
        ensures { IfOk result (λ hits. hit_rows hits.items ≡ entries self) }
    {
        let mut hits = Vec::new(alloc);
        for (key, score) in self.scores {
            hits.push(Hit {
                key: RowKey(key),
                score,
            })?;
        }
        Ok(hits)
    }
}
