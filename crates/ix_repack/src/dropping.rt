//! The rows of a term go.

ghost use Rattle.std.specs.Prelude.{◌≡◌, ◌++◌, IfOk, OnOk, map};
ghost use Rattle.ct_entry.specs.Changes.{spell};
ghost use Rattle.ix_repack.specs.Repacking.{entries_drop};

use ct_base::{Memory, Name};
use ct_entry::{Kind, remove_entry};
use ct_keep::Batch;
use std::alloc::Global;

/// What stands in the key of a row behind its index, by its term and what stands behind that.
fn row_part(alloc: Global, term: &[u8], first: &[u8]) -> Result<Vec<u8>, Memory>
    ensures { IfOk result (λ part. part.items ≡ term.now ++ first.now) }
{
    let mut part = Vec::from_slice(alloc, term)?;
    part.extend_from_slice(first)?;
    Ok(part)
}

/// Adds the changes by which the entries of an index under a term go, by what stands in their keys behind the term.
pub(crate) fn drop_rows(
    alloc: Global,
    batch: &mut Batch,
    kind: Kind,
    index: &Name,
    term: &[u8],
    found: &[(Vec<u8>, Vec<u8>)],
) -> Result<(), Memory>
    ensures { OnOk result (batch.new ≡ batch.old ++ spell (entries_drop kind index.now term.now (map (λ e. (e.0.items, e.1.items)) found.now))) }
{
    for (first, _row) in found {
        let part = row_part(alloc, term, first.as_slice())?;
        remove_entry(alloc, batch, kind, index, &part)?;
    }
    Ok(())
}
