//! What calls put into a batch.

ghost use Rattle.std.specs.Prelude.{◌≡◌, [], ◌∷◌, ◌++◌, ◌≤◌, length, IfOk, OnOk, OnErr};
ghost use Rattle.std.specs.List.{All};
ghost use Rattle.ct_base.specs.Limits.{column_limit};
ghost use Rattle.ct_entry.specs.Shapes.{AreShaped};
ghost use Rattle.ct_entry.specs.Changes.{spell, put_value};
ghost use Rattle.ct_entry.specs.declared.kinds.Kind.TheVariants as kind;
ghost use Rattle.ct_entry.specs.Keys.{key, text_part};
ghost use Rattle.tb_table.specs.Shapes.{HasTableValue, HaveShortTexts, IsTextEntry};
ghost use Rattle.tb_table.specs.Spelling.{table_changes, row_text_changes, insert_changes};

use crate::columns::Column;
use crate::writing::{columns_bytes, row_numbers_bytes, text_part};
use ct_base::{Memory, Name, RowKey, Text};
use ct_bytes::row_key_bytes;
use ct_entry::{Kind, put_entry};
use ct_keep::Batch;
use std::alloc::Global;

/// Adds the change of a new table. The batch is unchanged where there is no memory.
pub fn create(
    alloc: Global,
    batch: &mut Batch,
    table: &Name,
    columns: &[Column],
) -> Result<(), Memory>
    requires { length columns.now ≤ column_limit }
    ensures ok { OnOk result (batch.new ≡ batch.old ++ spell (table_changes table.now columns.now)) }
    ensures err { OnErr result (batch.new ≡ batch.old) }
    ensures shaped { OnOk result (AreShaped HasTableValue (spell (table_changes table.now columns.now))) }
{
    let _named = table.as_str();
    let value = columns_bytes(alloc, columns)?;
    put_entry(alloc, batch, Kind::Tables, table, &[], value)
}

/// What each text of a row keeps to: it is UTF-8, and its column has one byte. The function only states this law, which is known
/// of a text once it is read.
fn keep_text(column: u8, text: &Text)
    ensures { IsTextEntry (column, text.now) }
{
    let _utf8 = text.as_str();
}

/// Adds the change of a text of a row, whose bytes become the value.
fn put_text(
    alloc: Global,
    batch: &mut Batch,
    table: &Name,
    row: RowKey,
    column: u8,
    text: Text,
) -> Result<(), Memory>
    ensures { OnOk result (batch.new ≡ batch.old ++ spell (put_value (key kind.RowTexts table.now (text_part column row.0)) text ∷ [])) }
{
    let part = text_part(column, row);
    put_entry(
        alloc,
        batch,
        Kind::RowTexts,
        table,
        &part,
        text.into_bytes(),
    )
}

/// Adds a change for each text of a row.
fn put_texts(
    alloc: Global,
    batch: &mut Batch,
    table: &Name,
    key: RowKey,
    texts: Vec<(u8, Text)>,
) -> Result<(), Memory>
    ensures changes { OnOk result (batch.new ≡ batch.old ++ spell (row_text_changes table.now key.0 texts.items)) }
    ensures texts { OnOk result (All IsTextEntry texts.items) }
{
    for (column, text) in texts {
        keep_text(column, &text);
        put_text(alloc, batch, table, key, column, text)?;
    }
    Ok(())
}

/// Adds the changes of a new row: one for its numbers, in the order of their columns, and one for each of its texts, by the
/// places of their columns, that of the key being 0. The bytes of the texts become the values, without a copy. The batch is
/// unchanged where there is no memory.
pub fn insert(
    alloc: Global,
    batch: &mut Batch,
    table: &Name,
    key: RowKey,
    numbers: &[i64],
    texts: Vec<(u8, Text)>,
) -> Result<(), Memory>
    requires few { length numbers.now ≤ column_limit }
    requires short { HaveShortTexts texts.items }
    ensures ok { OnOk result (batch.new ≡ batch.old ++ spell (insert_changes table.now key.0 numbers.now texts.items)) }
    ensures err { OnErr result (batch.new ≡ batch.old) }
    ensures shaped { OnOk result (AreShaped HasTableValue (spell (insert_changes table.now key.0 numbers.now texts.items))) }
{
    let _named = table.as_str();
    let mut changes = Batch::new(alloc);
    let value = row_numbers_bytes(alloc, numbers)?;
    let part = row_key_bytes(key);
    put_entry(alloc, &mut changes, Kind::RowNumbers, table, &part, value)?;
    put_texts(alloc, &mut changes, table, key, texts)?;
    batch.append(changes)
}

/// Adds the changes of new values of a row: those of `insert`, but only the texts that change need to be given; the others
/// stay. The batch is unchanged where there is no memory.
///
/// Its cost is that of `insert`, for the texts that are given.
pub fn update(
    alloc: Global,
    batch: &mut Batch,
    table: &Name,
    key: RowKey,
    numbers: &[i64],
    texts: Vec<(u8, Text)>,
) -> Result<(), Memory>
    requires few { length numbers.now ≤ column_limit }
    requires short { HaveShortTexts texts.items }
    ensures ok { OnOk result (batch.new ≡ batch.old ++ spell (insert_changes table.now key.0 numbers.now texts.items)) }
    ensures err { OnErr result (batch.new ≡ batch.old) }
    ensures shaped { OnOk result (AreShaped HasTableValue (spell (insert_changes table.now key.0 numbers.now texts.items))) }
{
    insert(alloc, batch, table, key, numbers, texts)
}
