//! Where the value of a column comes from.

ghost use Rattle.std.specs.Prelude.{◌≡◌};
ghost use Rattle.db_rows.specs.Sources.{number_source, source_by, source_of as column_source_of, text_source};

use ct_base::Name;
use tb_table::{Column, Sort};

/// Where the value of a column comes from.
#[derive(Clone, Copy)]
pub enum Source {
    /// The key of the row.
    Key,
    /// The number at this place among the row's numbers, those of the NUMBER columns but the key.
    Number(usize),
    /// The text of the column at this place.
    Text(u8),
    /// There is none.
    Nothing,
}

/// Of a NUMBER column with so many NUMBER columns before it.
fn number_source(before: usize) -> Source
    ensures { result ≡ number_source before }
{
    if before == 0 {
        Source::Key
    } else {
        Source::Number(before - 1)
    }
}

/// Of a column of texts at this place.
fn text_source(place: usize) -> Source
    ensures { result ≡ text_source place }
{
    if place < 256 {
        Source::Text(place as u8)
    } else {
        Source::Nothing
    }
}

/// Of a column at this place with so many NUMBER columns before it.
fn column_source(sort: Sort, place: usize, before: usize) -> Source
    ensures { result ≡ source_by sort place before }
{
    match sort {
        Sort::Number => number_source(before),
        Sort::Varchar2(_) | Sort::Clob => text_source(place),
    }
}

/// Where the value of the column with this name comes from. Its cost is the number of columns.
pub fn source_of(name: &Name, columns: &[Column]) -> Source
    ensures { result ≡ column_source_of name.now columns.now }
{
    let name = name.as_str();
    let mut before = 0;
    for (place, column) in columns.iter().enumerate() {
        if name == column.name.as_str() {
            return column_source(column.sort, place, before);
        }
        if column.sort == Sort::Number {
            before += 1;
        }
    }
    Source::Nothing
}
