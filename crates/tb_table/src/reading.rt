//! Columns, numbers and texts from the values of entries.

ghost use Rattle.std.specs.Prelude.{◌≡◌, ℕ, ◌+◌, ◌≤◌, ◌<◌, ◌^◌, length, take, drop, IfOk, IfSome, IfNone, Some};
ghost use Rattle.std.specs.Option.{option_map};
ghost use Rattle.tb_table.specs.declared.columns.Sort.{Sort as SortValue};
ghost use Rattle.tb_table.specs.declared.columns.Column.{Column as ColumnValue};
ghost use Rattle.tb_table.specs.Spelling.{sort_code, sort_size};
ghost use Rattle.tb_table.specs.Readings.{sort_bytes, IsColumnAt, SpellsColumns, SpellsNumbers, SpellsText};

use crate::columns::{Column, Sort};
use ct_base::{Memory, Name, Text};
use ct_bytes::{read_row_key, read_text, read_u16, read_varint};
use std::alloc::Global;

/// The sort of a byte and a size.
fn sort_of(code: u8, size: u16) -> Option<Sort>
    ensures some { IfSome result (λ s. (sort_code s ≡ code) × (sort_size s ≡ size)) }
    ensures none { IfNone result ((s : SortValue) → sort_code s ≡ code → sort_size s ≡ size → ⊥) }
{
    match (code, size) {
        (1, 0) => Some(Sort::Number),
        (2, size) => Some(Sort::Varchar2(size)),
        (3, 0) => Some(Sort::Clob),
        _ => None,
    }
}

/// The sort that three bytes spell from `at` on.
fn read_sort(bytes: &[u8], at: usize) -> Option<Sort>
    ensures some { IfSome result (λ s. take 3 (drop at bytes.now) ≡ sort_bytes s) }
    ensures size { IfSome result (λ s. sort_size s < 2 ^ 16) }
    ensures none { IfNone result ((s : SortValue) → sort_size s < 2 ^ 16 → take 3 (drop at bytes.now) ≡ sort_bytes s → ⊥) }
{
    let code = *bytes.get(at)?;
    let size = read_u16(bytes, at + 1)?;
    sort_of(code, size)
}

/// The column that stands from `at` on, and the place after it.
fn read_column(alloc: Global, bytes: &[u8], at: usize) -> Result<Option<(Column, usize)>, Memory>
    ensures some { IfOk result (λ r. IfSome r (λ p. IsColumnAt bytes.now at p.0 p.1)) }
    ensures none { IfOk result (λ r. IfNone r ((c : ColumnValue) (next : ℕ) → IsColumnAt bytes.now at c next → ⊥)) }
    ensures within { IfOk result (λ r. IfSome r (λ p. p.1 ≤ length bytes.now)) }
{
    let Some((text, start)) = read_text(bytes, at) else {
        return Ok(None);
    };
    let Some(name) = Name::of_bytes(alloc, text)? else {
        return Ok(None);
    };
    let Some(sort) = read_sort(bytes, start) else {
        return Ok(None);
    };
    Ok(Some((Column { name, sort }, start + 3)))
}

/// The columns that the bytes spell; None where they spell none.
pub(crate) fn read_columns(alloc: Global, bytes: &[u8]) -> Result<Option<Vec<Column>>, Memory>
    ensures { IfOk result (λ found. SpellsColumns (Some bytes.now) (option_map (λ v. v.items) found)) }
{
    let Some((count, start)) = read_varint(bytes, 0) else {
        return Ok(None);
    };
    let mut columns = Vec::new(alloc);
    let mut at = start;
    'columns: while columns.len() < count as usize {
        let Some((column, next)) = read_column(alloc, bytes, at)? else {
            return Ok(None);
        };
        columns.push(column)?;
        at = next;
    }
    if at == bytes.len() {
        Ok(Some(columns))
    } else {
        Ok(None)
    }
}

/// The numbers that the bytes spell; None where they are no multiple of 8 bytes.
pub(crate) fn read_numbers(alloc: Global, bytes: &[u8]) -> Result<Option<Vec<i64>>, Memory>
    ensures { IfOk result (λ found. SpellsNumbers (Some bytes.now) (option_map (λ v. v.items) found)) }
{
    let mut numbers = Vec::new(alloc);
    let mut at = 0;
    'numbers: while let Some(number) = read_row_key(bytes, at) {
        numbers.push(number.0)?;
        at += 8;
    }
    if at == bytes.len() {
        Ok(Some(numbers))
    } else {
        Ok(None)
    }
}

/// The text that the bytes are in UTF-8; None where they aren't UTF-8.
pub(crate) fn read_utf8(alloc: Global, bytes: &[u8]) -> Result<Option<Text>, Memory>
    ensures { IfOk result (λ found. SpellsText (Some bytes.now) found) }
{
    match str::from_utf8(bytes) {
        Ok(text) => Ok(Some(Text::of(alloc, text)?)),
        Err(_) => Ok(None),
    }
}
