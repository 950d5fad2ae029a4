//! SELECT of a table.
#![tactic(auto, using(ct_keep::specs::laws::Composing::reads_on, ct_keep::specs::laws::Composing::reads_short))]

ghost use Rattle.std.specs.Prelude.{◌≡◌, ◌++◌, IfOk, Some, None};
ghost use Rattle.ct_keep.specs.KeeperViews.{OnlyReads};
ghost use Rattle.db_state.specs.States.{Sees};
ghost use Rattle.db_state.specs.Effects.{reply_by};
ghost use Rattle.db_find.specs.Searches.{held_search, sought};
ghost use Rattle.db_select.specs.Giving.{GivesLines, GivesOver, GivesScores};
ghost use Rattle.db_select.specs.Hits.{GivesAsked, HoldOwn, unsearched_rows};
ghost use Rattle.db_select.specs.Looking.{FindsFew, LooksFewOver, ReadsRows, SelectsFew};
ghost use Rattle.db_select.specs.Ordering.{in_order};
ghost use Rattle.db_select.specs.Selecting.{SelectedOwn, Selects, rows_reply_by, select as select_effect};
ghost use Rattle.db_select.specs.Choosing.{asked_by, selection};

use crate::checking::{plain_fault, search_fault};
use crate::choosing::chosen_order;
use crate::copying::copy_cond;
use crate::finds::{FoundRow, Selected};
use crate::hits::{met_hits, unsearched_hits};
use crate::listing::found_reply;
use crate::ordering::put_in_order;
use crate::predicates::{conds_in, unknown_name};
use crate::showing::shown_by;
use cat_where::Where;
use ct_base::{Memory, Name};
use ct_keep::{KeepFault, Keeper};
use db_cond::{Fault, fault_line};
use db_find::{Found, Search, find, needed_index, search_in};
use db_state::table_columns;
use ix_search::{Hit, looking_law};
use st_parse::{Cond, Conds, OrderItem, Pred, SelectList};
use std::alloc::Global;
use tb_table::Column;

/// The rows that meet conditions, where nothing is searched, in an order.
fn walked_rows<K: Keeper>(
    alloc: Global,
    keeper: &mut K,
    list: &SelectList,
    table: &Name,
    columns: &[Column],
    order: &[OrderItem],
    conds: &[Cond],
) -> Result<Vec<FoundRow>, KeepFault>
    requires { (K.view keeper.old).ready }
    ensures rows { GivesScores K.view keeper.old table.now columns.now result (λ m x. in_order x order.now (unsearched_rows m table.now x conds.now)) }
    ensures own { Sees K.view keeper.old result (λ m rows. HoldOwn m.tables table.now rows.items) }
    ensures reads { OnlyReads K.view keeper.old keeper.new result }
{
    let shown = shown_by(alloc, list, order, columns)?;
    let rows = unsearched_hits(alloc, keeper, table, columns, conds, &shown)?;
    put_in_order(alloc, keeper, table, columns, order, rows)
}

/// The rows that meet conditions, where nothing is searched; or the line of a refusal.
fn met_rows<K: Keeper>(
    alloc: Global,
    keeper: &mut K,
    list: &SelectList,
    orders: &[OrderItem],
    table: &Name,
    columns: &[Column],
    conds: &[Cond],
) -> Result<Selected, KeepFault>
    requires { (K.view keeper.old).ready }
    ensures rows { GivesOver K.view keeper.old table.now columns.now result (λ m x. Selects m table.now x (selection list.now orders.now) None conds.now) }
    ensures own { Sees K.view keeper.old result (λ m found. SelectedOwn m.tables table.now found) }
    ensures reads { OnlyReads K.view keeper.old keeper.new result }
{
    if let Some(fault) = plain_fault(list, orders, conds, columns) {
        return Ok(Selected::Refused(fault_line(alloc, fault)?));
    }
    let order = chosen_order(alloc, list, orders, &[])?;
    let rows = walked_rows(alloc, keeper, list, table, columns, order.as_slice(), conds)?;
    Ok(Selected::Rows(rows))
}

/// Conditions, and behind them others.
fn join_conds(alloc: Global, own: Conds, others: &[Cond]) -> Result<Vec<Cond>, Memory>
    ensures { IfOk result (λ conds. conds.items ≡ own ++ others.now) }
{
    let mut conds = own.into_vec();
    for cond in others {
        conds.push(copy_cond(alloc, cond)?)?;
    }
    Ok(conds)
}

/// Of rows that a search found those that meet what it asks for and other conditions, in the order that the SELECT asks for, or else the
/// search.
///
/// Of each row it reads only what the conditions and the order are on, each text once, and keeps of that the texts that are
/// shown, or by which rows are ordered, until the rows are shown.
fn asked_rows<K: Keeper>(
    alloc: Global,
    keeper: &mut K,
    list: &SelectList,
    orders: &[OrderItem],
    table: &Name,
    columns: &[Column],
    asked: Where,
    conds: &[Cond],
    found: &[Hit],
) -> Result<Vec<FoundRow>, KeepFault>
    requires { (K.view keeper.old).ready }
    ensures hits { GivesOver K.view keeper.old table.now columns.now result (λ m x rows. GivesAsked x (asked_by (selection list.now orders.now) asked) conds.now found.now rows.items) }
    ensures own { Sees K.view keeper.old result (λ m rows. HoldOwn m.tables table.now rows.items) }
    ensures reads { OnlyReads K.view keeper.old keeper.new result }
    ensures once { ReadsRows K.view keeper.old keeper.new list.now columns.now (asked_by (selection list.now orders.now) asked) conds.now found.now result }
{
    let Where {
        conds: own,
        orders: others,
    } = asked;
    let chosen = chosen_order(alloc, list, orders, others.as_slice())?;
    let order = chosen.as_slice();
    let all = join_conds(alloc, own, conds)?;
    let shown = shown_by(alloc, list, order, columns)?;
    let rows = met_hits(alloc, keeper, table, columns, &all, &shown, found)?;
    put_in_order(alloc, keeper, table, columns, order, rows)
}

/// The rows that a search finds and that meet conditions; or the line of a refusal.
fn searched_rows<K: Keeper>(
    alloc: Global,
    keeper: &mut K,
    list: &SelectList,
    orders: &[OrderItem],
    table: &Name,
    columns: &[Column],
    search: Search<'_>,
    conds: &[Cond],
) -> Result<Selected, KeepFault>
    requires { (K.view keeper.old).ready }
    ensures rows { GivesOver K.view keeper.old table.now columns.now result (λ m x. Selects m table.now x (selection list.now orders.now) (Some (held_search search.entry)) conds.now) }
    ensures own { Sees K.view keeper.old result (λ m found. SelectedOwn m.tables table.now found) }
    ensures reads { OnlyReads K.view keeper.old keeper.new result }
    ensures at_most { FindsFew K.view keeper.old keeper.new table.now columns.now (selection list.now orders.now) (Some (held_search search.entry)) conds.now result }
{
    looking_law();
    let Some(index) = needed_index(alloc, keeper, table, columns, search)? else {
        return Ok(Selected::Refused(fault_line(alloc, Fault::NoIndexOfKind)?));
    };
    if let Some(fault) = search_fault(list, orders, search, conds, columns) {
        return Ok(Selected::Refused(fault_line(alloc, fault)?));
    }
    let found = find(alloc, keeper, &index, columns, search)?;
    match found {
        Found::Refused(line) => Ok(Selected::Refused(line)),
        Found::Rows(hits, asked) => {
            let rows = asked_rows(
                alloc, keeper, list, orders, table, columns, asked, conds, &hits,
            )?;
            Ok(Selected::Rows(rows))
        }
    }
}

/// The rows that a SELECT finds in a table, in order of their keys, or as it asks for, or else a structured query; or the line of a refusal.
fn selected_rows<K: Keeper>(
    alloc: Global,
    keeper: &mut K,
    list: &SelectList,
    orders: &[OrderItem],
    table: &Name,
    columns: &[Column],
    search: Option<Search<'_>>,
    conds: &[Cond],
) -> Result<Selected, KeepFault>
    requires { (K.view keeper.old).ready }
    ensures rows { GivesOver K.view keeper.old table.now columns.now result (λ m x. Selects m table.now x (selection list.now orders.now) (sought search.entry) conds.now) }
    ensures own { Sees K.view keeper.old result (λ m found. SelectedOwn m.tables table.now found) }
    ensures reads { OnlyReads K.view keeper.old keeper.new result }
    ensures at_most { FindsFew K.view keeper.old keeper.new table.now columns.now (selection list.now orders.now) (sought search.entry) conds.now result }
{
    match search {
        None => met_rows(alloc, keeper, list, orders, table, columns, conds),
        Some(search) => searched_rows(alloc, keeper, list, orders, table, columns, search, conds),
    }
}

/// SELECT where the columns that it names are there: the rows are found, and then they are made lines.
fn select_known<K: Keeper>(
    alloc: Global,
    keeper: &mut K,
    list: &SelectList,
    orders: &[OrderItem],
    table: &Name,
    columns: &[Column],
    search: Option<Search<'_>>,
    conds: &[Cond],
) -> Result<Vec<u8>, KeepFault>
    requires { (K.view keeper.old).ready }
    ensures reply { GivesLines K.view keeper.old table.now columns.now result (λ m x. rows_reply_by m table.now x (selection list.now orders.now) (sought search.entry) conds.now) }
    ensures reads { OnlyReads K.view keeper.old keeper.new result }
    ensures at_most { LooksFewOver K.view keeper.old keeper.new table.now columns.now (selection list.now orders.now) (sought search.entry) conds.now 0 }
{
    let found = selected_rows(alloc, keeper, list, orders, table, columns, search, conds)?;
    let reply = found_reply(alloc, keeper, table, columns, list, found)?;
    Ok(reply)
}

/// SELECT of a list from the rows of a table that meet predicates, in the order of some items; where there is none in order of their keys,
/// or as a structured query asks for.
pub(crate) fn select_table<K: Keeper>(
    alloc: Global,
    keeper: &mut K,
    list: &SelectList,
    table: &Name,
    preds: &[Pred],
    orders: &[OrderItem],
) -> Result<Vec<u8>, KeepFault>
    requires { (K.view keeper.old).ready }
    ensures reply { Sees K.view keeper.old result (λ m reply. reply.items ≡ reply_by (select_effect m (selection list.now orders.now) table.now preds.now)) }
    ensures reads { OnlyReads K.view keeper.old keeper.new result }
    ensures at_most { SelectsFew K.view keeper.old keeper.new select_effect (selection list.now orders.now) table.now preds.now }
{
    let Some(columns) = table_columns(alloc, keeper, table)? else {
        return Ok(fault_line(alloc, Fault::UnknownName(table.as_str()))?);
    };
    if let Some(name) = unknown_name(list, orders, preds, &columns) {
        return Ok(fault_line(alloc, Fault::UnknownName(name.as_str()))?);
    }
    let conds = conds_in(alloc, preds)?;
    let search = search_in(preds);
    let reply = select_known(alloc, keeper, list, orders, table, &columns, search, &conds)?;
    Ok(reply)
}
