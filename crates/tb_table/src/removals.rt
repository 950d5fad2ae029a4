//! What the removal of rows and of tables puts into a batch.
#![tactic(auto, using(ct_keep::specs::laws::Composing::reads_on, ct_keep::specs::laws::Composing::reads_short))]

ghost use Rattle.std.specs.Prelude.{◌≡◌, [], ◌∷◌, ◌++◌, ◌+◌, ◌≤◌, length, OnOk, OnErr};
ghost use Rattle.ct_base.specs.Limits.{column_limit};
ghost use Rattle.ct_keep.specs.KeeperViews.{OnlyReads, Told};
ghost use Rattle.ct_keep.specs.Looks.{LooksAtMost};
ghost use Rattle.ct_entry.specs.Changes.{spell};
ghost use Rattle.ct_entry.specs.Removals.{OnlyRemoves};
ghost use Rattle.ct_entry.specs.Shapes.{AreShaped};
ghost use Rattle.tb_table.specs.Shapes.{HasTableValue};
ghost use Rattle.tb_table.specs.Spelling.{text_place, text_places, drop_texts, delete_changes, remove_changes, remove_looks};

use crate::columns::{Column, Sort};
use crate::writing::text_part;
use ct_base::{Memory, Name, RowKey};
use ct_bytes::row_key_bytes;
use ct_entry::{Kind, remove_entries, remove_entry};
use ct_keep::{Batch, KeepFault, Keeper};
use std::alloc::Global;

/// Adds the removal of the text of a row in a column, if the column has texts.
fn remove_text(
    alloc: Global,
    batch: &mut Batch,
    table: &Name,
    key: RowKey,
    place: u8,
    sort: Sort,
) -> Result<(), Memory>
    ensures { OnOk result (batch.new ≡ batch.old ++ spell (drop_texts table.now key.0 (text_place place sort))) }
{
    match sort {
        Sort::Number => Ok(()),
        Sort::Varchar2(_) | Sort::Clob => {
            let part = text_part(place, key);
            remove_entry(alloc, batch, Kind::RowTexts, table, &part)
        }
    }
}

/// Adds the removal of the text of a row in each column that has texts.
fn remove_texts(
    alloc: Global,
    batch: &mut Batch,
    table: &Name,
    columns: &[Column],
    key: RowKey,
) -> Result<(), Memory>
    requires { length columns.now ≤ column_limit }
    ensures { OnOk result (batch.new ≡ batch.old ++ spell (drop_texts table.now key.0 (text_places columns.now))) }
{
    let mut left = columns;
    let mut place = 0;
    'columns: while let [column, others @ ..] = left {
        remove_text(alloc, batch, table, key, place, column.sort)?;
        left = others;
        place += 1;
    }
    Ok(())
}

/// Adds the removal of a row: of its numbers, and of the text of each of the table's columns that has texts. It doesn't
/// matter whether the row is there. The batch is unchanged where there is no memory.
///
/// It makes no look-up; its cost is the number of columns.
pub fn delete(
    alloc: Global,
    batch: &mut Batch,
    table: &Name,
    columns: &[Column],
    key: RowKey,
) -> Result<(), Memory>
    requires { length columns.now ≤ column_limit }
    ensures ok { OnOk result (batch.new ≡ batch.old ++ spell (delete_changes table.now columns.now key.0)) }
    ensures err { OnErr result (batch.new ≡ batch.old) }
    ensures shaped { OnOk result (AreShaped HasTableValue (spell (delete_changes table.now columns.now key.0))) }
{
    let mut changes = Batch::new(alloc);
    let part = row_key_bytes(key);
    remove_entry(alloc, &mut changes, Kind::RowNumbers, table, &part)?;
    remove_texts(alloc, &mut changes, table, columns, key)?;
    batch.append(changes)
}

/// Adds the removal of a table: of its own entry, and of the numbers and the texts of all its rows. The batch is unchanged
/// where the call fails.
///
/// It takes a look-up for each entry of a row, and six more at the most. It never answers Full.
pub fn remove<K: Keeper>(
    alloc: Global,
    keeper: &mut K,
    batch: &mut Batch,
    table: &Name,
) -> Result<(), KeepFault>
    requires { (K.view keeper.old).ready }
    ensures ok { Told K.view keeper.old (λ m. OnOk result (batch.new ≡ batch.old ++ spell (remove_changes table.now m))) }
    ensures err { OnErr result (batch.new ≡ batch.old) }
    ensures shaped { OnOk result (OnlyRemoves batch.old batch.new) }
    ensures reads { OnlyReads K.view keeper.old keeper.new result }
    ensures at_most { Told K.view keeper.old (λ m. LooksAtMost K.view keeper.old keeper.new (remove_looks table.now m)) }
{
    let mut changes = Batch::new(alloc);
    remove_entries(alloc, keeper, &mut changes, Kind::Tables, table)?;
    remove_entries(alloc, keeper, &mut changes, Kind::RowNumbers, table)?;
    remove_entries(alloc, keeper, &mut changes, Kind::RowTexts, table)?;
    batch.append(changes)?;
    Ok(())
}
