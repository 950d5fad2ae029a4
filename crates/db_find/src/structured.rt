//! What the structured queries of CATSEARCH ask for.
#![tactic(auto)]

ghost use Rattle.std.specs.Prelude.{◌≡◌, IfOk, map};
ghost use Rattle.std.specs.List.{list_any};
ghost use Rattle.std.specs.Option.{option_map};
ghost use Rattle.std.specs.Str.{chars};
ghost use Rattle.ct_entry.specs.Keys.{same_list};
ghost use Rattle.cat_where.specs.Verdicts.{verdict};
ghost use Rattle.db_cond.specs.Refused.{refusal_of};
ghost use Rattle.db_find.specs.Structured.{IsRefused, MeansStructured, columns_refusal, cond_refusal, first_refusal, is_in_sub_index as is_in_one, item_refusal, structured_refusal, where_found};

use cat_where::{Where, WhereFault, read_where};
use ct_base::{Listed, Memory, Name};
use db_cond::{Fault, fault_line};
use db_rows::{cond_column, fits_cond};
use st_parse::{Cond, Item, OrderItem};
use std::alloc::Global;
use tb_table::Column;

/// What a structured query asks for.
#[derive(Drop)]
pub(crate) enum Structured {
    /// It is refused, with this line.
    Refused(Vec<u8>),
    /// It asks for this.
    Asks(Where),
}

/// A structured query that is refused.
fn refused(alloc: Global, fault: Fault<'_>) -> Result<Structured, Memory>
    ensures { IfOk result (λ asked. IsRefused asked (refusal_of fault.entry)) }
{
    Ok(Structured::Refused(fault_line(alloc, fault)?))
}

/// Whether one of the names is that of the column.
fn has_name(names: &[Name], name: &Name) -> bool
    ensures { result ≡ list_any (same_list name.now) names.now }
{
    names.iter().any(|own| name.as_str() == own.as_str())
}

/// Whether one of the sub-indexes has the column. Its cost is the number of their columns.
fn is_in_sub_index(subs: &[Listed<Name>], name: &Name) -> bool
    ensures { result ≡ is_in_one subs.now name.now }
{
    subs.iter().any(|sub| has_name(sub.as_slice(), name))
}

/// Why a condition is refused, if it is: its column is in no sub-index, or has values of another type.
fn cond_fault<'a>(cond: &'a Cond, columns: &[Column], subs: &[Listed<Name>]) -> Option<Fault<'a>>
    ensures { option_map refusal_of result ≡ cond_refusal columns.now subs.now cond.now }
{
    let name = cond_column(cond);
    if !is_in_sub_index(subs, name) {
        return Some(Fault::InNoSubIndex(name.as_str()));
    }
    if !fits_cond(cond, columns) {
        return Some(Fault::WrongValues);
    }
    None
}

/// Why an item of an order is refused, if it is: its column is in no sub-index.
fn item_fault<'a>(item: &'a Item, subs: &[Listed<Name>]) -> Option<Fault<'a>>
    ensures { option_map refusal_of result ≡ item_refusal subs.now item.now }
{
    match item {
        Item::Column(name) => {
            if is_in_sub_index(subs, name) {
                None
            } else {
                Some(Fault::InNoSubIndex(name.as_str()))
            }
        }
        Item::Score(_) => None,
    }
}

/// Why conditions are refused, if they are: the first that is.
fn conds_fault<'a>(
    conds: &'a [Cond],
    columns: &[Column],
    subs: &[Listed<Name>],
) -> Option<Fault<'a>>
    ensures { option_map refusal_of result ≡ first_refusal (map (cond_refusal columns.now subs.now) conds.now) }
{
    for cond in conds {
        if let Some(fault) = cond_fault(cond, columns, subs) {
            return Some(fault);
        }
    }
    None
}

/// Why an order is refused, if it is: the first of its items that is.
fn orders_fault<'a>(orders: &'a [OrderItem], subs: &[Listed<Name>]) -> Option<Fault<'a>>
    ensures { option_map refusal_of result ≡ first_refusal (map (λ o. item_refusal subs.now o.item) orders.now) }
{
    for order in orders {
        if let Some(fault) = item_fault(&order.item, subs) {
            return Some(fault);
        }
    }
    None
}

/// Why a structured query is refused by its columns, if it is: the first in its text. Its cost is the number of its conditions and of its order's items times
/// that of columns.
fn columns_fault<'a>(
    asked: &'a Where,
    columns: &[Column],
    subs: &[Listed<Name>],
) -> Option<Fault<'a>>
    ensures { option_map refusal_of result ≡ columns_refusal columns.now subs.now asked.now }
{
    match conds_fault(asked.conds.as_slice(), columns, subs) {
        Some(fault) => Some(fault),
        None => orders_fault(asked.orders.as_slice(), subs),
    }
}

/// What a structured query asks for, by a catalogue with these sub-indexes on a table with these columns; or the line of its refusal.
pub(crate) fn read_structured(
    alloc: Global,
    text: &str,
    columns: &[Column],
    subs: &[Listed<Name>],
) -> Result<Structured, Memory>
    ensures { IfOk result (λ asked. MeansStructured asked (structured_refusal columns.now subs.now (verdict (chars text.now))) (where_found (verdict (chars text.now)))) }
{
    match read_where(alloc, text) {
        Ok(asked) => {
            if let Some(fault) = columns_fault(&asked, columns, subs) {
                return refused(alloc, fault);
            }
            Ok(Structured::Asks(asked))
        }
        Err(WhereFault::Syntax(place)) => refused(alloc, Fault::QuerySyntax(place)),
        Err(WhereFault::BadNumber(place)) => refused(alloc, Fault::QueryNumber(place)),
        Err(WhereFault::Memory) => Err(Memory),
    }
}
