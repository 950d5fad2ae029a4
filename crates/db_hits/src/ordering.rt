//! The order of hits.
#![tactic(auto)]

ghost use Rattle.std.specs.Prelude.{◌≡◌, ◌++◌, ◌∷◌, List, map, IfOk, OnOk, IsPermutation};
ghost use Rattle.std.specs.List.{list_any};
ghost use Rattle.rs_result.specs.declared.rows.OrderBy.{OrderBy as Key};
ghost use Rattle.rs_result.specs.Orders.{AreInOrder};
ghost use Rattle.db_hits.specs.Rows.{OrderAlike, index_in as place_in, key_by as by_name, same_by};

use crate::rows::HitRow;
use ct_base::{Memory, Name};
use rs_result::{By, HitKey, OrderBy, order};
use std::alloc::Global;

/// The place of a name among names; their number where it isn't among them.
pub(crate) fn index_in(name: &Name, names: &[Name]) -> usize
    ensures { result ≡ place_in name.now names.now }
{
    for (place, other) in names.iter().enumerate() {
        if name.as_str() == other.as_str() {
            return place;
        }
    }
    names.len()
}

/// A key of the order.
fn key_by(names: &[Name], key: &HitKey) -> OrderBy
    ensures { result ≡ by_name names.now key.now }
{
    match key {
        HitKey::Score(down) => OrderBy {
            by: By::Score,
            down: *down,
        },
        HitKey::Column(name, down) => OrderBy {
            by: By::Column(index_in(name, names)),
            down: *down,
        },
    }
}

/// Whether two keys order by the same.
fn is_same_by(by: By, other: By) -> bool
    ensures { result ≡ same_by by other }
{
    match (by, other) {
        (By::Score, By::Score) => true,
        (By::Column(place), By::Column(other)) => place == other,
        (By::Score, By::Column(_)) | (By::Column(_), By::Score) => false,
    }
}

/// Whether one of the keys orders by this.
fn has_by(keys: &[OrderBy], by: By) -> bool
    ensures { result ≡ list_any (λ (key : Key). same_by key.by by) keys.now }
{
    keys.iter().any(|key| is_same_by(key.by, by))
}

/// Puts a key, unless one before it orders by the same: rows that tie in the one tie in the other.
fn push_key(keys: &mut Vec<OrderBy>, key: OrderBy) -> Result<(), Memory>
    ensures { OnOk result ((rest : List Key) → OrderAlike (keys.new.items ++ rest) (keys.old.items ++ key ∷ rest)) }
{
    if has_by(keys, key.by) {
        return Ok(());
    }
    keys.push(key)?;
    Ok(())
}

/// The keys of the order, by the places of their columns among these names. Each column, and the score, is there once, so that rows
/// compare by few keys.
pub(crate) fn order_keys(
    alloc: Global,
    names: &[Name],
    keys: &[HitKey],
) -> Result<Vec<OrderBy>, Memory>
    ensures { IfOk result (λ found. OrderAlike found.items (map (by_name names.now) keys.now)) }
{
    let mut found = Vec::new(alloc);
    for key in keys {
        push_key(&mut found, key_by(names, key))?;
    }
    Ok(found)
}

/// Puts rows into the order of keys. They may stand in any order before: where no two have the same key of their own, the order is one only.
pub(crate) fn put_in_order(rows: &mut Vec<HitRow>, keys: &[OrderBy])
    ensures moved { IsPermutation rows.old.items rows.new.items }
    ensures order { AreInOrder keys.now rows.new.items }
{
    order(rows, keys);
}
