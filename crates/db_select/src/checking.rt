//! The checks of a SELECT, behind those of its names and its index.
#![tactic(auto)]

ghost use Rattle.std.specs.Prelude.{◌≡◌, ◌||◌, [], None, Some, false};
ghost use Rattle.std.specs.List.{list_all};
ghost use Rattle.db_state.specs.Effects.{Effect, Checks};
ghost use Rattle.db_rows.specs.Checking.{fit_sort, has_beyond as any_beyond};
ghost use Rattle.db_find.specs.Searches.{has_long_document as is_document_long, held_search};
ghost use Rattle.db_select.specs.Checking.{check_parts, check_values, fit_labels as labels_fit, fit_orders as orders_fit, fits_order as order_fits, has_wrong_values as any_wrong, is_labelled, is_out_of_range as out_of_range, is_sortable as item_sorts, same_label};
ghost use Rattle.db_select.specs.Choosing.{selection};

use db_cond::Fault;
use db_find::Search;
use db_rows::{fit_columns, has_beyond, sort_of};
use st_parse::{Cond, Item, OrderItem, SelectList, Whole};
use tb_table::{Column, Sort};

/// Whether two labels are one. Two numbers outside 64 bits count as the same label.
fn is_same_label(a: Whole, b: Whole) -> bool
    ensures { result ≡ same_label a b }
{
    match (a, b) {
        (Whole::Fits(a), Whole::Fits(b)) => a == b,
        (Whole::Beyond, Whole::Beyond) => true,
        (Whole::Fits(_), Whole::Beyond) | (Whole::Beyond, Whole::Fits(_)) => false,
    }
}

/// Whether an item is a column, or the score with this label.
fn is_labelled(item: &Item, label: Option<Whole>) -> bool
    ensures { result ≡ is_labelled label item.now }
{
    match (item, label) {
        (Item::Column(_), _) => true,
        (Item::Score(own), Some(label)) => is_same_label(label, *own),
        (Item::Score(_), None) => false,
    }
}

/// Whether each score among the items is that with this label.
fn are_labelled(items: &[Item], label: Option<Whole>) -> bool
    ensures { result ≡ list_all (is_labelled label) items.now }
{
    items.iter().all(|item| is_labelled(item, label))
}

/// Whether each score of the list is that with this label.
fn fit_labels(list: &SelectList, label: Option<Whole>) -> bool
    ensures { result ≡ labels_fit list.now label }
{
    match list {
        SelectList::Star | SelectList::CountAll => true,
        SelectList::Items(items) => are_labelled(items.as_slice(), label),
    }
}

/// Whether rows may be ordered by values of this sort, as they are compared.
fn is_ordered(sort: Option<Sort>) -> bool
    ensures { result ≡ fit_sort [] sort }
{
    match sort {
        Some(Sort::Number) => true,
        Some(Sort::Varchar2(_)) => true,
        Some(Sort::Clob) => false,
        None => false,
    }
}

/// Whether the item is no CLOB.
fn is_sortable(item: &Item, columns: &[Column]) -> bool
    ensures { result ≡ item_sorts columns.now item.now }
{
    match item {
        Item::Column(name) => is_ordered(sort_of(name, columns)),
        Item::Score(_) => true,
    }
}

/// Whether rows may be ordered by the item: a column that is no CLOB, or the score with this label.
fn fits_order(order: &OrderItem, label: Option<Whole>, columns: &[Column]) -> bool
    ensures { result ≡ order_fits columns.now label order.now }
{
    is_labelled(&order.item, label) && is_sortable(&order.item, columns)
}

/// Whether rows may be ordered by each of the items. Its cost is their number times that of columns.
fn fit_orders(orders: &[OrderItem], label: Option<Whole>, columns: &[Column]) -> bool
    ensures { result ≡ orders_fit columns.now label orders.now }
{
    orders.iter().all(|order| fits_order(order, label, columns))
}

/// Whether a score of the list hasn't this label, rows can't be ordered as the SELECT asks, or a condition doesn't fit its column.
fn has_wrong_values(
    list: &SelectList,
    orders: &[OrderItem],
    label: Option<Whole>,
    conds: &[Cond],
    columns: &[Column],
) -> bool
    ensures { result ≡ any_wrong columns.now (selection list.now orders.now) label conds.now }
{
    !fit_labels(list, label) || !fit_orders(orders, label, columns) || !fit_columns(conds, columns)
}

/// Whether a number of a search or a condition is out of its range.
fn has_bad_number(search: Search<'_>, conds: &[Cond]) -> bool
    ensures { result ≡ (out_of_range (Some (held_search search.entry)) || any_beyond conds.now) }
{
    search.has_number_out_of_range() || has_beyond(conds)
}

/// The first of three faults that is there.
fn first_fault(wrong_values: bool, too_long: bool, out_of_range: bool) -> Option<Fault<'static>>
    ensures fault { (done : Effect) → Checks result (check_parts wrong_values too_long out_of_range done) done }
    ensures short { result ≡ None → too_long ≡ false }
{
    if wrong_values {
        return Some(Fault::WrongValues);
    }
    if too_long {
        return Some(Fault::ValueTooLong);
    }
    if out_of_range {
        return Some(Fault::OutOfRange);
    }
    None
}

/// What is wrong with the values and numbers of a SELECT with a search, if anything is. Its document isn't too long where nothing is.
pub(crate) fn search_fault(
    list: &SelectList,
    orders: &[OrderItem],
    search: Search<'_>,
    conds: &[Cond],
    columns: &[Column],
) -> Option<Fault<'static>>
    ensures fault { (done : Effect) → Checks result (check_values columns.now (selection list.now orders.now) (Some (held_search search.entry)) conds.now done) done }
    ensures short { result ≡ None → is_document_long (held_search search.entry) ≡ false }
{
    let wrong_values = has_wrong_values(list, orders, search.label(), conds, columns);
    let too_long = search.has_long_document();
    let out_of_range = has_bad_number(search, conds);
    first_fault(wrong_values, too_long, out_of_range)
}

/// The same of one without a search.
pub(crate) fn plain_fault(
    list: &SelectList,
    orders: &[OrderItem],
    conds: &[Cond],
    columns: &[Column],
) -> Option<Fault<'static>>
    ensures { (done : Effect) → Checks result (check_values columns.now (selection list.now orders.now) None conds.now done) done }
{
    let wrong_values = has_wrong_values(list, orders, None, conds, columns);
    let out_of_range = has_beyond(conds);
    first_fault(wrong_values, false, out_of_range)
}
