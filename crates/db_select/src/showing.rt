//! Of which columns a SELECT shows texts, or orders rows by them.
#![tactic(auto)]

ghost use Rattle.std.specs.Prelude.{◌≡◌, ◌<◌, ◌≤◌, ◌&&◌, [], ◌∷◌, ◌++◌, length, IfOk, OnOk};
ghost use Rattle.std.specs.List.{list_any};
ghost use Rattle.ix_kinds.specs.Targets.{is_text_sort};
ghost use Rattle.db_rows.specs.Texts.{shown_places};
ghost use Rattle.db_select.specs.Looking.{is_column_item, keeps as list_keeps, kept_texts, orders_by as orders_have, shows as list_shows};

use ct_base::Memory;
use db_rows::Shown;
use st_parse::{Item, OrderItem, SelectList};
use std::alloc::Global;
use tb_table::{Column, Sort};

/// Whether the values of such a column are texts.
fn is_of_texts(sort: Sort) -> bool
    ensures { result ≡ is_text_sort sort }
{
    match sort {
        Sort::Number => false,
        Sort::Varchar2(_) | Sort::Clob => true,
    }
}

/// Whether the item is the column.
fn is_item(item: &Item, column: &Column) -> bool
    ensures { result ≡ is_column_item column.now item.now }
{
    match item {
        Item::Column(name) => column.name.as_str() == name.as_str(),
        Item::Score(_) => false,
    }
}

/// Whether one of the items is the column.
fn is_among(items: &[Item], column: &Column) -> bool
    ensures { result ≡ list_any (is_column_item column.now) items.now }
{
    items.iter().any(|item| is_item(item, column))
}

/// Whether the list shows the column.
fn shows(list: &SelectList, column: &Column) -> bool
    ensures { result ≡ list_shows list.now column.now }
{
    match list {
        SelectList::Star => true,
        SelectList::CountAll => false,
        SelectList::Items(items) => is_among(items.as_slice(), column),
    }
}

/// Whether rows are ordered by the column.
fn orders_by(orders: &[OrderItem], column: &Column) -> bool
    ensures { result ≡ orders_have orders.now column.now }
{
    orders.iter().any(|order| is_item(&order.item, column))
}

/// Whether the list shows the texts of the column, or rows are ordered by them.
fn keeps_texts(list: &SelectList, orders: &[OrderItem], column: &Column) -> bool
    ensures { result ≡ (is_text_sort column.now.sort && list_keeps list.now orders.now column.now) }
{
    is_of_texts(column.sort) && (shows(list, column) || orders_by(orders, column))
}

/// Puts the place of a column.
fn push_place(places: &mut Vec<u8>, place: usize) -> Result<(), Memory>
    ensures { OnOk result (place < 256 → places.new.items ≡ places.old.items ++ place ∷ []) }
{
    if place < 256 {
        places.push(place as u8)?;
    }
    Ok(())
}

/// The places of the columns whose texts the list shows, or by which rows are ordered. Its cost is the number of columns times that of items.
fn kept_columns(
    alloc: Global,
    list: &SelectList,
    orders: &[OrderItem],
    columns: &[Column],
) -> Result<Vec<u8>, Memory>
    ensures { IfOk result (λ places. length columns.now ≤ 256 → places.items ≡ kept_texts list.now orders.now columns.now) }
{
    let mut places = Vec::new(alloc);
    for (place, column) in columns.iter().enumerate() {
        if !keeps_texts(list, orders, column) {
            continue;
        }
        push_place(&mut places, place)?;
    }
    Ok(places)
}

/// What is to be kept of the rows that are found for a list, in an order.
pub(crate) fn shown_by(
    alloc: Global,
    list: &SelectList,
    orders: &[OrderItem],
    columns: &[Column],
) -> Result<Shown, Memory>
    ensures { IfOk result (λ shown. length columns.now ≤ 256 → shown_places shown ≡ kept_texts list.now orders.now columns.now) }
{
    if let SelectList::CountAll = list {
        if orders.is_empty() {
            return Ok(Shown::Keys);
        }
    }
    let columns = kept_columns(alloc, list, orders, columns)?;
    Ok(Shown::Texts(columns))
}
