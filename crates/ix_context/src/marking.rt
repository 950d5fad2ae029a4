//! Making rows documents of indexes.

ghost use Rattle.std.specs.Prelude.{◌≡◌, ◌+◌, ◌<◌, ◌≤◌, ◌^◌, MatchOption};
ghost use Rattle.ix_docmap.specs.Changes.{mark_changes};
ghost use Rattle.ix_context.specs.Changes.{Adds};
ghost use Rattle.ix_context.specs.Shapes.{KeepsShape};

use ct_base::{DocId, Memory, Name, RowKey};
use ct_keep::Batch;
use ix_docmap::mark;
use std::alloc::Global;

/// Adds the changes by which a row becomes this document of an index.
pub(crate) fn mark_next(
    alloc: Global,
    changes: &mut Batch,
    index: &Name,
    document: u32,
    row: RowKey,
) -> Result<(), Memory>
    ensures changes { Adds changes.old changes.new result (mark_changes index.now document row.0) }
    ensures shaped { KeepsShape changes.old changes.new result }
{
    // Read so that the proof knows that it is a name.
    let _named = index.as_str();
    mark(alloc, changes, index, row, DocId(document))
}

/// The number that follows so many, of which this is the first; None where it has over 32 bits.
pub(crate) fn number_after(first: u32, count: usize) -> Option<u32>
    ensures { MatchOption result (2 ^ 32 ≤ first + count) (λ number. (number ≡ first + count) × (number < 2 ^ 32)) }
{
    if count <= (u32::MAX - first) as usize {
        Some(first + count as u32)
    } else {
        None
    }
}
