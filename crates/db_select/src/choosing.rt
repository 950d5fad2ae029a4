//! What the rows of a SELECT are ordered by.
#![tactic(auto)]

ghost use Rattle.std.specs.Prelude.{◌≡◌, ◌++◌, ◌∷◌, [], IfOk, OnOk};
ghost use Rattle.db_select.specs.Choosing.{chosen_order as order_chosen, first_items as items_first, is_repeated as names_again, own_or as some_or, same_item as names_same};

use crate::copying::copy_order;
use ct_base::Memory;
use st_parse::{Item, OrderItem, Orders, SelectList};
use std::alloc::Global;

/// Whether two items name the same column, or are both the score.
fn is_same_item(a: &Item, b: &Item) -> bool
    ensures { result ≡ names_same a.now b.now }
{
    match (a, b) {
        (Item::Column(a), Item::Column(b)) => a.as_str() == b.as_str(),
        (Item::Score(_), Item::Score(_)) => true,
        (Item::Column(_), Item::Score(_)) | (Item::Score(_), Item::Column(_)) => false,
    }
}

/// Whether one of the items names what this one names.
fn is_repeated(orders: &[OrderItem], order: &OrderItem) -> bool
    ensures { result ≡ names_again orders.now order.now }
{
    orders
        .iter()
        .any(|other| is_same_item(&other.item, &order.item))
}

/// Puts a copy of an item.
fn push_copy(items: &mut Vec<OrderItem>, order: &OrderItem) -> Result<(), Memory>
    ensures { OnOk result (items.new.items ≡ items.old.items ++ order.now ∷ []) }
{
    items.push(copy_order(order)?)?;
    Ok(())
}

/// Copies of the items, without those that name what one before them names. Its cost is their number times that of the columns that
/// they name.
fn first_items(alloc: Global, orders: &[OrderItem]) -> Result<Vec<OrderItem>, Memory>
    ensures { IfOk result (λ first. first.items ≡ items_first orders.now) }
{
    let mut first = Vec::new(alloc);
    for order in orders {
        if is_repeated(&first, order) {
            continue;
        }
        push_copy(&mut first, order)?;
    }
    Ok(first)
}

/// Some items, or the others where there is none.
fn own_or<'a>(own: &'a [OrderItem], others: &'a [OrderItem]) -> &'a [OrderItem]
    ensures { result.now ≡ some_or own.now others.now }
{
    match own {
        [] => others,
        _ => own,
    }
}

/// What rows are ordered by, where a structured query asks for the others: by nothing where they are only counted, and else by the
/// SELECT's own items, which replace the others; by each column, and by the score, once.
pub(crate) fn chosen_order(
    alloc: Global,
    list: &SelectList,
    own: &[OrderItem],
    others: &[OrderItem],
) -> Result<Orders, Memory>
    ensures { IfOk result (λ chosen. chosen ≡ order_chosen list.now own.now others.now) }
{
    match list {
        SelectList::CountAll => Ok(Orders::empty(alloc)),
        SelectList::Star => Ok(Orders::of(first_items(alloc, own_or(own, others))?)),
        SelectList::Items(_) => Ok(Orders::of(first_items(alloc, own_or(own, others))?)),
    }
}
