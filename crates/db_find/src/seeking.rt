//! The index that a search needs.
#![tactic(auto, using(ct_keep::specs::laws::Composing::reads_on, ct_keep::specs::laws::Composing::reads_short))]

ghost use Rattle.std.specs.Prelude.{◌≤◌, [], ◌∷◌, length, IfOk, Some};
ghost use Rattle.ct_keep.specs.KeeperViews.{OnlyReads, Told};
ghost use Rattle.ct_keep.specs.Looks.{LooksAtMost, scan_looks};
ghost use Rattle.ct_entry.specs.declared.kinds.Kind.TheVariants as entry;
ghost use Rattle.ct_entry.specs.Kinds.{code};
ghost use Rattle.db_state.specs.States.{OverStates};
ghost use Rattle.db_find.specs.Searches.{held_search};
ghost use Rattle.db_find.specs.Seeking.{NeedsIndex};

use crate::searches::Search;
use ct_base::Name;
use ct_keep::{KeepFault, Keeper};
use db_state::{column_place, index_of_column};
use std::alloc::Global;
use tb_table::Column;

/// The index that a search of a table needs: that on its column, of the kind that answers it. It scans the entries of all indexes.
pub fn needed_index<K: Keeper>(
    alloc: Global,
    keeper: &mut K,
    table: &Name,
    columns: &[Column],
    search: Search<'_>,
) -> Result<Option<Name>, KeepFault>
    requires { (K.view keeper.old).ready }
    ensures index { OverStates K.view keeper.old (λ m c. length columns.now ≤ 256 → IfOk result (NeedsIndex m table.now columns.now (held_search search.entry))) }
    ensures reads { OnlyReads K.view keeper.old keeper.new result }
    ensures at_most { Told K.view keeper.old (λ m. LooksAtMost K.view keeper.old keeper.new (scan_looks (code entry.Indexes ∷ []) m)) }
{
    match column_place(search.column(), columns) {
        Some(place) => index_of_column(alloc, keeper, search.kind(), table, place),
        None => Ok(None),
    }
}
