//! Rows, taken as their bytes.

ghost use Rattle.std.specs.Prelude.{◌++◌, IfOk, map};
ghost use Rattle.ct_keep.specs.KeeperViews.{Finds, OnlyReads, Told};
ghost use Rattle.ct_keep.specs.Looks.{LooksAtMost, scan_looks};
ghost use Rattle.ct_entry.specs.Keys.{prefix_of};
ghost use Rattle.ct_entry.specs.Listings.{owner_entries};
ghost use Rattle.ix_posting.specs.Lists.{posting_list};
ghost use Rattle.ix_posting.specs.Rows.{DocumentsRise};
ghost use Rattle.ix_rows.specs.Taking.{AreHeld, IsTaken, AreTaken};

use ct_base::{Memory, Name};
use ct_entry::{Kind, entries_of};
use ct_keep::{KeepFault, Keeper};
use ix_posting::{EncodedRow, EncodedRows, Place};
use std::alloc::Global;

/// The row that bytes spell, and its last document, where its first one stands behind `before`; and else None. It keeps
/// the bytes, and decodes nothing. Its cost is their length.
fn row_behind<P: Place>(bytes: Vec<u8>, before: u32) -> Option<(EncodedRow<P>, u32)>
    ensures { IsTaken P.form before bytes.items result }
{
    let Some(row) = EncodedRow::of(bytes) else {
        return None;
    };
    let first = row.first();
    if first <= before {
        return None;
    }
    let last = row.last();
    Some((row, last))
}

/// Rows that the values of entries spell. Where each value spells a row, and documents rise from one row to the next, these are all rows. Of
/// other entries it gives some rows whose documents rise; the contract doesn't say which. Its cost is the length of the values.
pub fn rows_in<P: Place>(
    alloc: Global,
    entries: Vec<(Vec<u8>, Vec<u8>)>,
) -> Result<Vec<EncodedRow<P>>, Memory>
    ensures { IfOk result (λ rows. AreTaken P.form (map (λ e. (e.0.items, e.1.items)) entries.items) rows.items) }
{
    let mut rows = Vec::new(alloc);
    let mut last = 0;
    for (_, value) in entries {
        if let Some((row, end)) = row_behind(value, last) {
            rows.push(row)?;
            last = end;
        }
    }
    Ok(rows)
}

/// The rows of a term of an index: those that its entries of this kind spell, as `rows_in` takes them. It takes one scan, and its cost is
/// the length of these entries. It never answers Full.
#[tactic(auto, using(ct_keep::specs::laws::Composing::reads_on, ct_keep::specs::laws::Composing::reads_short))]
pub fn rows_of<P: Place, K: Keeper>(
    alloc: Global,
    keeper: &mut K,
    kind: Kind,
    index: &Name,
    term: &[u8],
) -> Result<EncodedRows<P>, KeepFault>
    requires { (K.view keeper.old).ready }
    ensures rise { IfOk result (λ rows. DocumentsRise P.form 0 (posting_list rows)) }
    ensures rows { Finds K.view keeper.old result (λ m rows. AreHeld P.form (owner_entries kind index.now term.now m) rows) }
    ensures reads { OnlyReads K.view keeper.old keeper.new result }
    ensures at_most { Told K.view keeper.old (λ m. LooksAtMost K.view keeper.old keeper.new (scan_looks (prefix_of kind index.now ++ term.now) m)) }
{
    let entries = entries_of(alloc, keeper, kind, index, term)?;
    let rows = rows_in(alloc, entries)?;
    Ok(EncodedRows::of(alloc, rows)?)
}
