//! Puts rows that were found into the order asked for.
#![tactic(auto, using(ct_keep::specs::laws::Composing::reads_on, ct_keep::specs::laws::Composing::reads_short))]

ghost use Rattle.std.specs.Prelude.{◌≡◌, ◌++◌, ◌∷◌, [], IfOk, OnOk, IsPermutation, map};
ghost use Rattle.ct_keep.specs.KeeperViews.{OnlyReads};
ghost use Rattle.rs_result.specs.Comparing.{rank_cmp, ranked};
ghost use Rattle.rs_result.specs.Orders.{HaveOwnKeys};
ghost use Rattle.rs_result.specs.Sorting.{sorted_by};
ghost use Rattle.db_state.specs.States.{Sees};
ghost use Rattle.db_select.specs.Giving.{GivesOver};
ghost use Rattle.db_select.specs.Hits.{HoldOwn};
ghost use Rattle.db_select.specs.Ordering.{keys_from};
ghost use Rattle.db_select.specs.Ranking.{AreRanked, IsRanked, OrdersRows, OrdersWithin, RanksWithin, found_of, order_sources};

use crate::fields::field_values;
use crate::finds::FoundRow;
use crate::sources::{FieldSource, field_source};
use ct_base::{Memory, Name};
use ct_keep::{KeepFault, Keeper};
use db_rows::RowRead;
use ix_search::Hit;
use rs_result::{By, OrderBy, ResultRow, order};
use st_parse::OrderItem;
use std::alloc::Global;
use tb_table::Column;

/// Where the values come from by which rows are ordered.
fn sources_of_order(
    alloc: Global,
    orders: &[OrderItem],
    columns: &[Column],
) -> Result<Vec<FieldSource>, Memory>
    ensures { IfOk result (λ sources. sources.items ≡ order_sources columns.now orders.now) }
{
    let mut sources = Vec::new(alloc);
    for order in orders {
        sources.push(field_source(&order.item, columns))?;
    }
    Ok(sources)
}

/// The keys of the order: the values of the items, the first first.
fn order_keys(alloc: Global, orders: &[OrderItem]) -> Result<Vec<OrderBy>, Memory>
    ensures { IfOk result (λ keys. keys.items ≡ keys_from 0 orders.now) }
{
    let mut keys = Vec::new(alloc);
    for (place, order) in orders.iter().enumerate() {
        keys.push(OrderBy {
            by: By::Column(place),
            down: order.down,
        })?;
    }
    Ok(keys)
}

/// A row with the values by which it is ordered.
fn with_values<K: Keeper>(
    alloc: Global,
    keeper: &mut K,
    table: &Name,
    sources: &[FieldSource],
    row: FoundRow,
) -> Result<ResultRow<RowRead>, KeepFault>
    requires { (K.view keeper.old).ready }
    ensures row { Sees K.view keeper.old result (λ m ranked. IsRanked m.tables table.now sources.now row ranked) }
    ensures reads { OnlyReads K.view keeper.old keeper.new result }
    ensures within { RanksWithin K.view keeper.old keeper.new sources.now (row ∷ []) result (λ ranked. ranked ∷ []) }
{
    let FoundRow { hit, mut read } = row;
    let values = field_values(alloc, keeper, table, sources, hit, &mut read)?;
    Ok(ResultRow {
        key: hit.key,
        score: hit.score,
        values,
        item: read,
    })
}

/// Puts a row with its values.
fn push_ranked(rows: &mut Vec<ResultRow<RowRead>>, row: ResultRow<RowRead>) -> Result<(), Memory>
    ensures { OnOk result (rows.new.items ≡ rows.old.items ++ row ∷ []) }
{
    rows.push(row)?;
    Ok(())
}

/// Rows with the values by which they are ordered, each text of which is read once.
fn rows_with_values<K: Keeper>(
    alloc: Global,
    keeper: &mut K,
    table: &Name,
    sources: &[FieldSource],
    rows: Vec<FoundRow>,
) -> Result<Vec<ResultRow<RowRead>>, KeepFault>
    requires { (K.view keeper.old).ready }
    ensures rows { Sees K.view keeper.old result (λ m ranked. AreRanked m.tables table.now sources.now rows.items ranked.items) }
    ensures reads { OnlyReads K.view keeper.old keeper.new result }
    ensures within { RanksWithin K.view keeper.old keeper.new sources.now rows.items result (λ ranked. ranked.items) }
{
    let mut ranked = Vec::new(alloc);
    for row in rows {
        let valued = with_values(alloc, keeper, table, sources, row)?;
        push_ranked(&mut ranked, valued)?;
    }
    Ok(ranked)
}

/// A row without the values by which it was ordered.
fn without_values(row: ResultRow<RowRead>) -> FoundRow
    ensures { result ≡ found_of row }
{
    let ResultRow {
        key,
        score,
        item,
        ..
    } = row;
    FoundRow {
        hit: Hit { key, score },
        read: item,
    }
}

/// Rows without the values by which they were ordered.
fn rows_without_values(
    alloc: Global,
    rows: Vec<ResultRow<RowRead>>,
) -> Result<Vec<FoundRow>, Memory>
    ensures { IfOk result (λ found. found.items ≡ map found_of rows.items) }
{
    let mut found = Vec::new(alloc);
    for row in rows {
        found.push(without_values(row))?;
    }
    Ok(found)
}

/// Puts rows into the order that the keys ask for. Where no two have the same key of their own, there is one such order only.
fn order_rows(rows: &mut Vec<ResultRow<RowRead>>, keys: &[OrderBy])
    ensures permutation { IsPermutation rows.old.items rows.new.items }
    ensures sorted { HaveOwnKeys rows.old.items → rows.new.items ≡ sorted_by (λ a b. rank_cmp keys.now (ranked a) (ranked b)) rows.old.items }
{
    order(rows, keys);
}

/// Rows in the order asked for; those that are the same by all its items stand in order of their keys. Without items they stay as they are.
///
/// It reads the values of each row once, each text only as far as it wasn't read, and compares n log n times.
pub(crate) fn put_in_order<K: Keeper>(
    alloc: Global,
    keeper: &mut K,
    table: &Name,
    columns: &[Column],
    orders: &[OrderItem],
    rows: Vec<FoundRow>,
) -> Result<Vec<FoundRow>, KeepFault>
    requires { (K.view keeper.old).ready }
    ensures rows { GivesOver K.view keeper.old table.now columns.now result (λ m x found. OrdersRows m.tables table.now x orders.now rows.items found.items) }
    ensures own { Sees K.view keeper.old result (λ m found. HoldOwn m.tables table.now rows.items → HoldOwn m.tables table.now found.items) }
    ensures reads { OnlyReads K.view keeper.old keeper.new result }
    ensures within { OrdersWithin K.view keeper.old keeper.new (order_sources columns.now orders.now) rows.items result }
{
    if orders.is_empty() {
        return Ok(rows);
    }
    let sources = sources_of_order(alloc, orders, columns)?;
    let keys = order_keys(alloc, orders)?;
    let mut ranked = rows_with_values(alloc, keeper, table, &sources, rows)?;
    order_rows(&mut ranked, &keys);
    Ok(rows_without_values(alloc, ranked)?)
}
