//! What statements ask of the tables and the indexes.
#![tactic(auto, using(ct_keep::specs::laws::Composing::reads_on, ct_keep::specs::laws::Composing::reads_short))]

ghost use Rattle.std.specs.Prelude.{◌≡◌, ◌<◌, ◌∷◌, [], IfOk, Some, is_some, nat_le, length};
ghost use Rattle.std.specs.Option.{option_map};
ghost use Rattle.std.specs.FinMap.{get, entries};
ghost use Rattle.ct_base.specs.Limits.{table_limit};
ghost use Rattle.ct_keep.specs.Content.{Content};
ghost use Rattle.ct_keep.specs.KeeperViews.{OnlyReads, Told};
ghost use Rattle.ct_keep.specs.Looks.{no_looks, scan_looks, LooksAtMost};
ghost use Rattle.ct_entry.specs.declared.kinds.Kind.TheVariants as entry;
ghost use Rattle.ct_entry.specs.Kinds.{code};
ghost use Rattle.tb_table.specs.Tables.{Table};
ghost use Rattle.db_state.specs.States.{OverStates, is_view as is_view_name, Sees};
ghost use Rattle.db_state.specs.Lookups.{FoundOn};

use ct_base::{Memory, Name, TABLE_LIMIT};
use ct_keep::{KeepFault, Keeper};
use db_names::{IndexKind, index_of, index_on};
use std::alloc::Global;
use tb_table::{Column, Target, columns_of, tables};

/// Whether the name is reserved for a view, so that no table has it.
pub fn is_view(name: &str) -> bool
    ensures { result ≡ is_view_name name.now }
{
    name == "ctx_user_pending" || name == "ctx_user_index_errors"
}

/// The columns of a table, where it is there.
pub fn table_columns<K: Keeper>(
    alloc: Global,
    keeper: &mut K,
    table: &Name,
) -> Result<Option<Vec<Column>>, KeepFault>
    requires { (K.view keeper.old).ready }
    ensures columns { Sees K.view keeper.old result (λ m found. option_map (λ v. v.items) found ≡ option_map (λ (x : Table). x.columns) (get m.tables table.now)) }
    ensures reads { OnlyReads K.view keeper.old keeper.new result }
    ensures at_most { LooksAtMost K.view keeper.old keeper.new no_looks }
{
    columns_of(alloc, keeper, table)
}

/// Whether there is a table of the name.
pub fn has_table<K: Keeper>(alloc: Global, keeper: &mut K, table: &Name) -> Result<bool, KeepFault>
    requires { (K.view keeper.old).ready }
    ensures there { Sees K.view keeper.old result (λ m there. there ≡ is_some (get m.tables table.now)) }
    ensures reads { OnlyReads K.view keeper.old keeper.new result }
    ensures at_most { LooksAtMost K.view keeper.old keeper.new no_looks }
{
    let columns = table_columns(alloc, keeper, table)?;
    Ok(columns.is_some())
}

/// Whether these are the names of as many tables as there may be.
fn are_most(names: &[Name]) -> bool
    ensures { result ≡ nat_le table_limit (length names.now) }
{
    names.len() >= TABLE_LIMIT
}

/// Whether there are as many tables as there may be.
pub fn has_most_tables<K: Keeper>(alloc: Global, keeper: &mut K) -> Result<bool, KeepFault>
    requires { (K.view keeper.old).ready }
    ensures many { Sees K.view keeper.old result (λ m many. many ≡ nat_le table_limit (length (entries m.tables))) }
    ensures reads { OnlyReads K.view keeper.old keeper.new result }
    ensures at_most { Told K.view keeper.old (λ m. LooksAtMost K.view keeper.old keeper.new (scan_looks (code entry.Tables ∷ []) m)) }
{
    let names = tables(alloc, keeper)?;
    Ok(are_most(&names))
}

/// A column of a table.
pub fn target_of(table: &Name, column: u8) -> Result<Target, Memory>
    ensures { IfOk result (λ target. target ≡ record { table = table.now; column = column }) }
{
    let table = table.clone()?;
    Ok(Target { table, column })
}

/// The index of a kind on a column of a table by its place.
pub fn index_of_column<K: Keeper>(
    alloc: Global,
    keeper: &mut K,
    kind: IndexKind,
    table: &Name,
    place: usize,
) -> Result<Option<Name>, KeepFault>
    requires { (K.view keeper.old).ready }
    ensures found { OverStates K.view keeper.old (λ m c. place < 256 → IfOk result (FoundOn kind m.indexes table.now place)) }
    ensures reads { OnlyReads K.view keeper.old keeper.new result }
    ensures at_most { Told K.view keeper.old (λ m. LooksAtMost K.view keeper.old keeper.new (scan_looks (code entry.Indexes ∷ []) m)) }
{
    let Ok(column) = u8::try_from(place) else {
        return Ok(None);
    };
    let target = target_of(table, column)?;
    index_on(alloc, keeper, &target, kind)
}

/// Whether there is an index of the name.
pub fn has_index<K: Keeper>(alloc: Global, keeper: &mut K, index: &Name) -> Result<bool, KeepFault>
    requires { (K.view keeper.old).ready }
    ensures there { Sees K.view keeper.old result (λ m there. there ≡ is_some (get m.indexes index.now)) }
    ensures reads { OnlyReads K.view keeper.old keeper.new result }
    ensures at_most { LooksAtMost K.view keeper.old keeper.new no_looks }
{
    let head = index_of(alloc, keeper, index)?;
    Ok(head.is_some())
}
