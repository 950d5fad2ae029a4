//! What a SELECT names, and its conditions: the parts of its list, of its predicates and of its order.
#![tactic(auto)]

ghost use Rattle.std.specs.Prelude.{◌≡◌, ◌++◌, ◌∷◌, [], map, IfOk, OnOk};
ghost use Rattle.std.specs.Option.{option_map};
ghost use Rattle.db_state.specs.Columns.{first_unknown};
ghost use Rattle.db_select.specs.Predicates.{columns_among, cond_in, conds_in as all_conds, list_columns, named_columns, order_columns, pred_column as column_of_pred};
ghost use Rattle.db_select.specs.Choosing.{selection};

use crate::copying::copy_cond;
use ct_base::{Memory, Name};
use db_rows::cond_column;
use db_state::has_column;
use st_parse::{Cond, Item, OrderItem, Pred, SelectList};
use std::alloc::Global;
use tb_table::Column;

/// The column that a predicate is on.
fn pred_column(pred: &Pred) -> &Name
    ensures { result.now ≡ column_of_pred pred.now }
{
    match pred {
        Pred::Cond(cond) => cond_column(cond),
        Pred::Contains { column, .. } => column,
        Pred::Catsearch { column, .. } => column,
        Pred::Matches { column, .. } => column,
    }
}

/// The first column of the predicates that isn't there.
fn unknown_column<'a>(preds: &'a [Pred], columns: &[Column]) -> Option<&'a Name>
    ensures { option_map (λ name. name.now) result ≡ first_unknown (map column_of_pred preds.now) columns.now }
{
    for pred in preds {
        let name = pred_column(pred);
        if !has_column(name, columns) {
            return Some(name);
        }
    }
    None
}

/// The first column of the items that isn't there.
fn unknown_item<'a>(items: &'a [Item], columns: &[Column]) -> Option<&'a Name>
    ensures { option_map (λ name. name.now) result ≡ first_unknown (columns_among items.now) columns.now }
{
    for item in items {
        if let Item::Column(name) = item {
            if !has_column(name, columns) {
                return Some(name);
            }
        }
    }
    None
}

/// The first column that the list names and that isn't there.
fn unknown_listed<'a>(list: &'a SelectList, columns: &[Column]) -> Option<&'a Name>
    ensures { option_map (λ name. name.now) result ≡ first_unknown (list_columns list.now) columns.now }
{
    match list {
        SelectList::Star | SelectList::CountAll => None,
        SelectList::Items(items) => unknown_item(items.as_slice(), columns),
    }
}

/// The column of the item, if it names one and that isn't there.
fn unknown_in<'a>(item: &'a Item, columns: &[Column]) -> Option<&'a Name>
    ensures { option_map (λ name. name.now) result ≡ first_unknown (columns_among (item.now ∷ [])) columns.now }
{
    match item {
        Item::Column(name) => if has_column(name, columns) {
            None
        } else {
            Some(name)
        },
        Item::Score(_) => None,
    }
}

/// The first column of an order that isn't there.
fn unknown_ordered<'a>(orders: &'a [OrderItem], columns: &[Column]) -> Option<&'a Name>
    ensures { option_map (λ name. name.now) result ≡ first_unknown (order_columns orders.now) columns.now }
{
    for order in orders {
        if let Some(name) = unknown_in(&order.item, columns) {
            return Some(name);
        }
    }
    None
}

/// The first column of the predicates and the order that isn't there.
fn unknown_behind<'a>(
    preds: &'a [Pred],
    orders: &'a [OrderItem],
    columns: &[Column],
) -> Option<&'a Name>
    ensures { option_map (λ name. name.now) result ≡ first_unknown (map column_of_pred preds.now ++ order_columns orders.now) columns.now }
{
    match unknown_column(preds, columns) {
        Some(name) => Some(name),
        None => unknown_ordered(orders, columns),
    }
}

/// The first column of the list, the predicates and the order that isn't there. Its cost is the number of their columns times that of
/// the table's.
pub(crate) fn unknown_name<'a>(
    list: &'a SelectList,
    orders: &'a [OrderItem],
    preds: &'a [Pred],
    columns: &[Column],
) -> Option<&'a Name>
    ensures { option_map (λ name. name.now) result ≡ first_unknown (named_columns (selection list.now orders.now) preds.now) columns.now }
{
    match unknown_listed(list, columns) {
        Some(name) => Some(name),
        None => unknown_behind(preds, orders, columns),
    }
}

/// Puts a copy of the condition that a predicate is, if it is one.
fn push_cond(alloc: Global, conds: &mut Vec<Cond>, pred: &Pred) -> Result<(), Memory>
    ensures { OnOk result (conds.new.items ≡ conds.old.items ++ cond_in pred.now) }
{
    match pred {
        Pred::Cond(cond) => {
            conds.push(copy_cond(alloc, cond)?)?;
            Ok(())
        }
        Pred::Contains { .. } | Pred::Catsearch { .. } | Pred::Matches { .. } => Ok(()),
    }
}

/// The conditions among predicates, in their order. They are copies, of which a statement has few.
pub(crate) fn conds_in(alloc: Global, preds: &[Pred]) -> Result<Vec<Cond>, Memory>
    ensures { IfOk result (λ conds. conds.items ≡ all_conds preds.now) }
{
    let mut conds = Vec::new(alloc);
    for pred in preds {
        push_cond(alloc, &mut conds, pred)?;
    }
    Ok(conds)
}
