//! What tables and rows a keeper holds, each by one look-up.
#![tactic(auto, using(ct_keep::specs::laws::Composing::reads_short))]

ghost use Rattle.std.specs.Prelude.{◌≡◌, None, [], is_some};
ghost use Rattle.std.specs.Option.{option_map};
ghost use Rattle.ct_keep.specs.KeeperViews.{Finds, OnlyReads};
ghost use Rattle.ct_keep.specs.Looks.{look, LooksAtMost};
ghost use Rattle.ct_entry.specs.declared.kinds.Kind.TheVariants as kind;
ghost use Rattle.ct_entry.specs.Keys.{key, bytes, at, text_part};
ghost use Rattle.tb_table.specs.Spelling.{numbers_key};
ghost use Rattle.tb_table.specs.Readings.{SpellsColumns, SpellsNumbers, SpellsText};

use crate::columns::Column;
use crate::reading::{read_columns, read_numbers, read_utf8};
use crate::writing::text_part;
use ct_base::{Name, RowKey, Text};
use ct_bytes::row_key_bytes;
use ct_entry::{Kind, fetch_entry, has_entry};
use ct_keep::{KeepFault, Keeper};
use std::alloc::Global;

/// The columns of a table. None where the table isn't there, or its entry spells no columns. It never answers Full.
pub fn columns_of<K: Keeper>(
    alloc: Global,
    keeper: &mut K,
    table: &Name,
) -> Result<Option<Vec<Column>>, KeepFault>
    requires { (K.view keeper.old).ready }
    ensures value { Finds K.view keeper.old result (λ m found. SpellsColumns (at m (key kind.Tables table.now [])) (option_map (λ v. v.items) found)) }
    ensures reads { OnlyReads K.view keeper.old keeper.new result }
    ensures at_most { LooksAtMost K.view keeper.old keeper.new (look (bytes (key kind.Tables table.now [])) None) }
{
    let Some(value) = fetch_entry(alloc, keeper, Kind::Tables, table, &[])? else {
        return Ok(None);
    };
    let columns = read_columns(alloc, &value)?;
    Ok(columns)
}

/// The numbers of a row, in the order of their columns. None where there is no such row, or its entry's length is no
/// multiple of 8. It never answers Full.
pub fn number_row<K: Keeper>(
    alloc: Global,
    keeper: &mut K,
    table: &Name,
    row: RowKey,
) -> Result<Option<Vec<i64>>, KeepFault>
    requires { (K.view keeper.old).ready }
    ensures value { Finds K.view keeper.old result (λ m found. SpellsNumbers (at m (numbers_key table.now row.0)) (option_map (λ v. v.items) found)) }
    ensures reads { OnlyReads K.view keeper.old keeper.new result }
    ensures at_most { LooksAtMost K.view keeper.old keeper.new (look (bytes (numbers_key table.now row.0)) None) }
{
    let part = row_key_bytes(row);
    let Some(value) = fetch_entry(alloc, keeper, Kind::RowNumbers, table, &part)? else {
        return Ok(None);
    };
    let numbers = read_numbers(alloc, &value)?;
    Ok(numbers)
}

/// Whether the table has a row of the key. It never answers Full.
pub fn has_row<K: Keeper>(
    alloc: Global,
    keeper: &mut K,
    table: &Name,
    row: RowKey,
) -> Result<bool, KeepFault>
    requires { (K.view keeper.old).ready }
    ensures value { Finds K.view keeper.old result (λ m there. there ≡ is_some (at m (numbers_key table.now row.0))) }
    ensures reads { OnlyReads K.view keeper.old keeper.new result }
    ensures at_most { LooksAtMost K.view keeper.old keeper.new (look (bytes (numbers_key table.now row.0)) None) }
{
    let part = row_key_bytes(row);
    has_entry(alloc, keeper, Kind::RowNumbers, table, &part)
}

/// The text of a row in a column, the column by its place, that of the key being 0. None where none is there, or the
/// entry isn't UTF-8. It never answers Full.
pub fn text_of<K: Keeper>(
    alloc: Global,
    keeper: &mut K,
    table: &Name,
    column: u8,
    row: RowKey,
) -> Result<Option<Text>, KeepFault>
    requires { (K.view keeper.old).ready }
    ensures value { Finds K.view keeper.old result (λ m found. SpellsText (at m (key kind.RowTexts table.now (text_part column row.0))) found) }
    ensures reads { OnlyReads K.view keeper.old keeper.new result }
    ensures at_most { LooksAtMost K.view keeper.old keeper.new (look (bytes (key kind.RowTexts table.now (text_part column row.0))) None) }
{
    let part = text_part(column, row);
    let Some(value) = fetch_entry(alloc, keeper, Kind::RowTexts, table, &part)? else {
        return Ok(None);
    };
    let text = read_utf8(alloc, &value)?;
    Ok(text)
}
