//! Where the fields of a line come from.
#![tactic(auto)]

ghost use Rattle.std.specs.Prelude.{◌≡◌, IfOk, map};
ghost use Rattle.db_select.specs.Sources.{column_source as column_source_of, field_source as field_source_of};

use ct_base::Memory;
use db_rows::{Source, source_of};
use st_parse::Item;
use std::alloc::Global;
use tb_table::Column;

/// Where a field comes from.
#[derive(Clone, Copy)]
pub(crate) enum FieldSource {
    /// The value of a column.
    Column(Source),
    /// The score of the row.
    Score,
}

/// Of an item of the list.
pub(crate) fn field_source(item: &Item, columns: &[Column]) -> FieldSource
    ensures { result ≡ field_source_of columns.now item.now }
{
    match item {
        Item::Column(name) => FieldSource::Column(source_of(name, columns)),
        Item::Score(_) => FieldSource::Score,
    }
}

/// Of each item of the list. Its cost is the number of items times that of columns.
pub(crate) fn sources_of(
    alloc: Global,
    items: &[Item],
    columns: &[Column],
) -> Result<Vec<FieldSource>, Memory>
    ensures { IfOk result (λ sources. sources.items ≡ map (field_source_of columns.now) items.now) }
{
    let mut sources = Vec::new(alloc);
    for item in items {
        sources.push(field_source(item, columns))?;
    }
    Ok(sources)
}

/// Of a column.
fn column_source(column: &Column, columns: &[Column]) -> FieldSource
    ensures { result ≡ column_source_of columns.now column.now }
{
    FieldSource::Column(source_of(&column.name, columns))
}

/// Of each column. Its cost is the square of the number of columns.
pub(crate) fn column_sources(alloc: Global, columns: &[Column]) -> Result<Vec<FieldSource>, Memory>
    ensures { IfOk result (λ sources. sources.items ≡ map (column_source_of columns.now) columns.now) }
{
    let mut sources = Vec::new(alloc);
    for column in columns {
        sources.push(column_source(column, columns))?;
    }
    Ok(sources)
}
