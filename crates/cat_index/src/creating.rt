//! New catalogues.
#![tactic(auto, using(ct_keep::specs::laws::Composing::reads_on, ct_keep::specs::laws::Composing::reads_short))]

ghost use Rattle.std.specs.Prelude.{◌≡◌, ◌≤◌, IfOk, OnErr, length, map, true};
ghost use Rattle.std.specs.List.{list_all};
ghost use Rattle.ct_base.specs.Limits.{sub_index_limit};
ghost use Rattle.ct_keep.specs.KeeperViews.{OnlyReads};
ghost use Rattle.ct_entry.specs.Changes.{spell};
ghost use Rattle.ct_entry.specs.Shapes.{AreShaped};
ghost use Rattle.tx_settings.specs.Attributes.{can_be_set};
ghost use Rattle.tx_sets.specs.Sets.{are_sub_indexes};
ghost use Rattle.ix_kinds.specs.Rows.{table_at};
ghost use Rattle.cat_index.specs.Filings.{fit_sub_index};
ghost use Rattle.cat_index.specs.Catalogues.{place_of, places_in};
ghost use Rattle.cat_index.specs.Changes.{Adds};
ghost use Rattle.cat_index.specs.Sees.{AddsCreated, AddsRow, AddsRows, AreItsColumns, OverTables, created_changes};
ghost use Rattle.cat_index.specs.Shapes.{HasCatalogueValue, KeepsShape};

use crate::catalogues::Catalogue;
use crate::entries::put_catalogue;
use crate::filings::row_filing;
use crate::reading::row_values;
use crate::rows::row_comes;
use ct_base::{Listed, Memory, Name, RowKey};
use ct_entry::{Kind, row_keys};
use ct_keep::{Batch, KeepFault, Keeper};
use std::alloc::Global;
use tb_table::{Column, columns_of};
use tx_sets::SubIndex;

/// The place of the column with this name, that of the key being 0; the place behind the last where there is none.
fn place_of(columns: &[Column], name: &Name) -> usize
    ensures { result ≡ place_of columns.now name.now }
{
    let name = name.as_str();
    let mut place = 0;
    let mut rest = columns;
    while let [column, later @ ..] = rest {
        if name == column.name.as_str() {
            return place;
        }
        place += 1;
        rest = later;
    }
    place
}

/// The places of the columns of a sub-index.
fn places_of(alloc: Global, columns: &[Column], names: &[Name]) -> Result<Listed<usize>, Memory>
    ensures { IfOk result (λ places. places ≡ map (place_of columns.now) names.now) }
{
    let mut places = Vec::new(alloc);
    let mut rest = names;
    while let [name, later @ ..] = rest {
        places.push(place_of(columns, name))?;
        rest = later;
    }
    Ok(Listed::of(places))
}

/// The places in a table with these columns of those of each sub-index, that of the key being 0.
///
/// Its cost is the number of columns, for each name.
pub fn places_in(
    alloc: Global,
    columns: &[Column],
    subs: &[SubIndex],
) -> Result<Vec<Listed<usize>>, Memory>
    ensures { IfOk result (λ places. places.items ≡ places_in columns.now subs.now) }
{
    let mut places = Vec::new(alloc);
    let mut rest = subs;
    while let [names, later @ ..] = rest {
        places.push(places_of(alloc, columns, names.as_slice())?)?;
        rest = later;
    }
    Ok(places)
}

/// The columns of a table; none where there is no such table.
fn columns_or_none<K: Keeper>(
    alloc: Global,
    keeper: &mut K,
    table: &Name,
) -> Result<Vec<Column>, KeepFault>
    requires { (K.view keeper.old).ready }
    ensures columns { OverTables K.view keeper.old (λ ts. IfOk result (λ columns. columns.items ≡ (table_at ts table.now).columns)) }
    ensures reads { OnlyReads K.view keeper.old keeper.new result }
{
    let Some(columns) = columns_of(alloc, keeper, table)? else {
        return Ok(Vec::new(alloc));
    };
    Ok(columns)
}

/// Adds the changes of a row of the table in a new catalogue, which has sub-indexes of the columns at these places.
fn put_row<K: Keeper>(
    alloc: Global,
    keeper: &mut K,
    changes: &mut Batch,
    index: &Name,
    catalogue: &Catalogue,
    columns: &[Column],
    places: &[Listed<usize>],
    row: RowKey,
) -> Result<(), KeepFault>
    requires ready { (K.view keeper.old).ready }
    requires set { can_be_set catalogue.now.prefs.lexer ≡ true }
    requires few { length places.now ≤ sub_index_limit }
    requires each { list_all fit_sub_index places.now ≡ true }
    requires places { places.now ≡ places_in columns.now catalogue.now.subs }
    ensures changes { AddsRow K.view keeper.old index.now catalogue.now columns.now row.0 (Adds changes.old changes.new result) }
    ensures shaped { KeepsShape changes.old changes.new result }
    ensures reads { OnlyReads K.view keeper.old keeper.new result }
{
    let values = row_values(alloc, keeper, &catalogue.target.table, columns, row)?;
    let filing = row_filing(
        alloc,
        &catalogue.prefs,
        catalogue.target.column,
        places,
        row,
        &values,
    )?;
    row_comes(alloc, changes, index, row, &filing)?;
    Ok(())
}

/// Adds those of these rows of the table.
fn put_rows<K: Keeper>(
    alloc: Global,
    keeper: &mut K,
    changes: &mut Batch,
    index: &Name,
    catalogue: &Catalogue,
    columns: &[Column],
    places: &[Listed<usize>],
    rows: &[RowKey],
) -> Result<(), KeepFault>
    requires ready { (K.view keeper.old).ready }
    requires set { can_be_set catalogue.now.prefs.lexer ≡ true }
    requires few { length places.now ≤ sub_index_limit }
    requires each { list_all fit_sub_index places.now ≡ true }
    requires places { places.now ≡ places_in columns.now catalogue.now.subs }
    ensures changes { AddsRows K.view keeper.old index.now catalogue.now columns.now rows.now (Adds changes.old changes.new result) }
    ensures shaped { KeepsShape changes.old changes.new result }
    ensures reads { OnlyReads K.view keeper.old keeper.new result }
{
    let mut rest = rows;
    'each: while let Some((row, later)) = rest.split_first() {
        put_row(
            alloc, keeper, changes, index, catalogue, columns, places, *row,
        )?;
        rest = later;
    }
    Ok(())
}

/// The changes of a new catalogue on a table with these columns: its entry, and those of each row that the table has.
fn changes_over<K: Keeper>(
    alloc: Global,
    keeper: &mut K,
    index: &Name,
    catalogue: &Catalogue,
    columns: &[Column],
) -> Result<Batch, KeepFault>
    requires ready { (K.view keeper.old).ready }
    requires set { can_be_set catalogue.now.prefs.lexer ≡ true }
    requires subs { are_sub_indexes catalogue.now.subs ≡ true }
    ensures changes { OverTables K.view keeper.old (λ ts. AreItsColumns ts catalogue.now columns.now → IfOk result (λ w. w ≡ spell (created_changes ts index.now catalogue.now))) }
    ensures shaped { IfOk result (AreShaped HasCatalogueValue) }
    ensures reads { OnlyReads K.view keeper.old keeper.new result }
{
    let places = places_in(alloc, columns, catalogue.subs.as_slice())?;
    let rows = row_keys(alloc, keeper, Kind::RowNumbers, &catalogue.target.table)?;
    let mut changes = Batch::new(alloc);
    put_catalogue(alloc, &mut changes, index, catalogue)?;
    let sub_places = places.as_slice();
    let keys = rows.as_slice();
    put_rows(
        alloc,
        keeper,
        &mut changes,
        index,
        catalogue,
        columns,
        sub_places,
        keys,
    )?;
    Ok(changes)
}

/// Adds the changes of a new catalogue: its entry, and for each row that its table has, the entries of the row's words in each
/// sub-index.
///
/// Its cost is the length of the rows, with a logarithm for each word. It holds one row, and what it adds. The batch is unchanged
/// at each error; it never answers Full.
pub fn create<K: Keeper>(
    alloc: Global,
    keeper: &mut K,
    batch: &mut Batch,
    index: &Name,
    catalogue: &Catalogue,
) -> Result<(), KeepFault>
    requires ready { (K.view keeper.old).ready }
    requires set { can_be_set catalogue.now.prefs.lexer ≡ true }
    requires subs { are_sub_indexes catalogue.now.subs ≡ true }
    ensures changes { AddsCreated K.view keeper.old index.now catalogue.now (Adds batch.old batch.new result) }
    ensures err { OnErr result (batch.new ≡ batch.old) }
    ensures shaped { KeepsShape batch.old batch.new result }
    ensures reads { OnlyReads K.view keeper.old keeper.new result }
{
    let columns = columns_or_none(alloc, keeper, &catalogue.target.table)?;
    let changes = changes_over(alloc, keeper, index, catalogue, &columns)?;
    batch.append(changes)?;
    Ok(())
}
