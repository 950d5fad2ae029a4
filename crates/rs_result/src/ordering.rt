//! The order of rows, and a cut of them.

ghost use Rattle.std.specs.Prelude.{◌≡◌, ◌≤◌, IsPermutation};
ghost use Rattle.std.specs.Option.{option_cmp, option_copied};
ghost use Rattle.rs_result.specs.Comparing.{key_cmp, nth_value, rank_cmp, ranked, turned, value_cmp};
ghost use Rattle.rs_result.specs.Orders.{AreInOrder, HaveOwnKeys, cut};
ghost use Rattle.rs_result.specs.Sorting.{sorted_by};

use crate::rows::{By, OrderBy, ResultRow};
use ct_base::Value;
use std::cmp::Ordering;

/// Compares two values: numbers by size, texts by their bytes, and any number is less than any text.
pub(crate) fn value_cmp(value: &Value, other: &Value) -> Ordering
    ensures { result ≡ value_cmp value.now other.now }
{
    match (value, other) {
        (Value::Number(number), Value::Number(other)) => number.cmp(other),
        (Value::Number(_), Value::Text(_)) => Ordering::Less,
        (Value::Text(_), Value::Number(_)) => Ordering::Greater,
        (Value::Text(text), Value::Text(other)) => text.as_str().cmp(other.as_str()),
    }
}

/// The value with this index, where the row has one.
pub(crate) fn nth_value<T>(column: usize, row: &ResultRow<T>) -> Option<&Value>
    ensures { option_copied result ≡ nth_value column (ranked row.now) }
{
    match row.values.as_slice().get(column) {
        Some(Some(value)) => Some(value),
        Some(None) => None,
        None => None,
    }
}

/// Compares the values with this index. A row that has none is less than one that has.
fn column_cmp<T>(column: usize, row: &ResultRow<T>, other: &ResultRow<T>) -> Ordering
    ensures { result ≡ option_cmp value_cmp (nth_value column (ranked row.now)) (nth_value column (ranked other.now)) }
{
    match (nth_value(column, row), nth_value(column, other)) {
        (None, None) => Ordering::Equal,
        (None, Some(_)) => Ordering::Less,
        (Some(_), None) => Ordering::Greater,
        (Some(value), Some(other)) => value_cmp(value, other),
    }
}

fn turned(down: bool, ordering: Ordering) -> Ordering
    ensures { result ≡ turned down ordering }
{
    if down { ordering.reverse() } else { ordering }
}

/// Compares two rows by one key.
fn key_cmp<T>(key: &OrderBy, row: &ResultRow<T>, other: &ResultRow<T>) -> Ordering
    ensures { result ≡ key_cmp key.now (ranked row.now) (ranked other.now) }
{
    match key.by {
        By::Score => turned(key.down, row.score.cmp(&other.score)),
        By::Column(column) => turned(key.down, column_cmp(column, row, other)),
    }
}

/// Compares two rows by the keys, and where all tie by their own keys.
fn row_cmp<T>(by: &[OrderBy], row: &ResultRow<T>, other: &ResultRow<T>) -> Ordering
    ensures { result ≡ rank_cmp by.now (ranked row.now) (ranked other.now) }
{
    let mut rest = by;
    while let [key, others @ ..] = rest {
        let ordering = key_cmp(key, row, other);
        if !ordering.is_eq() {
            return ordering;
        }
        rest = others;
    }
    row.key.0.cmp(&other.key.0)
}

/// Puts the rows into the order that the keys ask for, the first key first; rows that tie by all of them stand in rising order of
/// their own keys. Where no two rows have the same key of their own, there is one such order only. It takes no memory, and makes some
/// n log n comparisons of n rows.
pub fn order<T>(rows: &mut [ResultRow<T>], by: &[OrderBy])
    ensures rows { IsPermutation rows.old rows.new }
    ensures order { AreInOrder by.now rows.new }
    ensures sorted { HaveOwnKeys rows.old → rows.new ≡ sorted_by (λ a b. rank_cmp by.now (ranked a) (ranked b)) rows.old }
{
    rows.sort_unstable_by(|row, other| row_cmp(by, row, other));
}

/// The rows from the one with this number to that with the other, counted from 1; past the end it gives what is there. It looks at no
/// row.
pub fn between<T>(rows: &[ResultRow<T>], from: u32, to: u32) -> &[ResultRow<T>]
    requires begins { 1 ≤ from }
    requires ends { from ≤ to }
    ensures { result.now ≡ cut from to rows.now }
{
    let (until, _) = rows.split_at(rows.len().min(to as usize));
    let (_, rest) = until.split_at(until.len().min(from as usize - 1));
    rest
}
