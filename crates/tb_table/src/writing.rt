//! Columns and numbers as the values of entries, and rows as the rests of their keys.

ghost use Rattle.std.specs.Prelude.{◌≡◌, ◌++◌, ◌^◌, ◌<◌, length, IfOk, OnOk, FitsSigned};
ghost use Rattle.std.specs.List.{All};
ghost use Rattle.std.specs.Int.{w64};
ghost use Rattle.ct_entry.specs.Keys.{text_part};
ghost use Rattle.tb_table.specs.Readings.{IsSpellable};
ghost use Rattle.tb_table.specs.Spelling.{sort_code, sort_size, column_bytes, columns_bytes, row_numbers_bytes};

use crate::columns::{Column, Sort};
use ct_base::{Memory, RowKey};
use ct_bytes::{put_text, put_u16, put_varint, row_key_bytes};
use std::alloc::Global;

/// The byte of a sort.
fn sort_code(sort: Sort) -> u8
    ensures { result ≡ sort_code sort }
{
    match sort {
        Sort::Number => 1,
        Sort::Varchar2(_) => 2,
        Sort::Clob => 3,
    }
}

/// The size of a sort, 0 where it has none.
fn sort_size(sort: Sort) -> u16
    ensures { result ≡ sort_size sort }
{
    match sort {
        Sort::Number | Sort::Clob => 0,
        Sort::Varchar2(size) => size,
    }
}

/// What each column keeps to: it can be spelt. The function only states this law, which is known of a column once it is read.
fn keep_column(column: &Column)
    ensures { IsSpellable column.now }
{
    let _named = column.name.as_str();
    let _size = sort_size(column.sort);
}

/// Puts a column at the end.
fn put_column(out: &mut Vec<u8>, column: &Column) -> Result<(), Memory>
    ensures { OnOk result (out.new.items ≡ out.old.items ++ column_bytes column.now) }
{
    let size = sort_size(column.sort);
    put_text(out, column.name.as_str().as_bytes())?;
    out.push(sort_code(column.sort))?;
    put_u16(out, size)
}

/// The value of a table's entry: how many columns, and each in turn.
pub(crate) fn columns_bytes(alloc: Global, columns: &[Column]) -> Result<Vec<u8>, Memory>
    requires { length columns.now < 2 ^ 32 }
    ensures bytes { IfOk result (λ bytes. bytes.items ≡ columns_bytes columns.now) }
    ensures spellable { IfOk result (λ _. All IsSpellable columns.now) }
{
    let mut bytes = Vec::new(alloc);
    put_varint(&mut bytes, columns.len() as u32)?;
    for column in columns {
        keep_column(column);
        put_column(&mut bytes, column)?;
    }
    Ok(bytes)
}

/// The value of a row's entry: its numbers, eight bytes each.
pub(crate) fn row_numbers_bytes(alloc: Global, numbers: &[i64]) -> Result<Vec<u8>, Memory>
    ensures bytes { IfOk result (λ bytes. bytes.items ≡ row_numbers_bytes numbers.now) }
    ensures fit { IfOk result (λ _. All (FitsSigned w64) numbers.now) }
{
    let mut bytes = Vec::new(alloc);
    for number in numbers {
        bytes.extend_from_slice(&row_key_bytes(RowKey(*number)))?;
    }
    Ok(bytes)
}

/// The rest of the key of a text: its column, and its row.
pub(crate) fn text_part(column: u8, key: RowKey) -> [u8; 9]
    ensures { result ≡ text_part column key.0 }
{
    let [a, b, c, d, e, f, g, h] = row_key_bytes(key);
    [column, a, b, c, d, e, f, g, h]
}
