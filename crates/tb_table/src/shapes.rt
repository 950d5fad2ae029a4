//! Whether entries of tables are well shaped.

ghost use Rattle.std.specs.Prelude.{IsTrue, ◌↔◌, ◌≡◌, ◌≤◌, IfOk, [], length};
ghost use Rattle.std.specs.Str.{IsUtf8};
ghost use Rattle.ct_entry.specs.declared.kinds.Kind.TheVariants as kind;
ghost use Rattle.ct_entry.specs.Keys.{IsPart};
ghost use Rattle.tb_table.specs.Shapes.{IsTableShape, IsTableValue, text_entry_limit};

use crate::reading::{read_columns, read_numbers};
use ct_base::Memory;
use ct_entry::{Kind, is_row_part};
use std::alloc::Global;

/// How many bytes the text of an entry has at most: 2^24. Those of statements are shorter.
const TEXT_ENTRY_LIMIT: usize = 1 << 24;

/// Whether an entry of this kind, with this rest of its key and this value, is one of a table and well shaped. That its owner
/// is a name isn't tested. Its cost is the length of the value.
pub fn is_table_shape(alloc: Global, kind: Kind, part: &[u8], value: &[u8]) -> Result<bool, Memory>
    ensures { IfOk result (λ is. IsTrue is ↔ IsTableShape kind part.now value.now) }
{
    match kind {
        Kind::Tables => is_table(alloc, part, value),
        Kind::RowNumbers => is_row(alloc, part, value),
        Kind::RowTexts => Ok(is_text_part(part) && is_text(value)),
        _ => Ok(false),
    }
}

/// Whether the entry of a table is well shaped, whose key has no rest.
fn is_table(alloc: Global, part: &[u8], value: &[u8]) -> Result<bool, Memory>
    ensures { IfOk result (λ is. IsTrue is ↔ IsTableShape kind.Tables part.now value.now) }
{
    if !part.is_empty() {
        return Ok(false);
    }
    let columns = read_columns(alloc, value)?;
    Ok(columns.is_some())
}

/// Whether the entry of a row's numbers is well shaped.
fn is_row(alloc: Global, part: &[u8], value: &[u8]) -> Result<bool, Memory>
    ensures { IfOk result (λ is. IsTrue is ↔ IsTableShape kind.RowNumbers part.now value.now) }
{
    if !is_row_part(part) {
        return Ok(false);
    }
    let numbers = read_numbers(alloc, value)?;
    Ok(numbers.is_some())
}

/// Whether the rest of a key is that of a text: a column's byte and a row key.
fn is_text_part(part: &[u8]) -> bool
    ensures { IsTrue result ↔ IsPart kind.RowTexts part.now }
{
    match part {
        [] => false,
        [_column, row @ ..] => is_row_part(row),
    }
}

/// Whether the bytes are a text that an entry may have.
fn is_text(value: &[u8]) -> bool
    ensures { IsTrue result ↔ IsTableValue kind.RowTexts value.now }
{
    value.len() <= TEXT_ENTRY_LIMIT && str::from_utf8(value).is_ok()
}
