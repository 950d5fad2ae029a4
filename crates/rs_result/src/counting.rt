//! How many rows have each value.

ghost use Rattle.std.specs.Prelude.{◌≡◌, ◌<◌, ◌≤◌, ◌^◌, length, map, IfOk};
ghost use Rattle.rs_result.specs.Comparing.{ranked};
ghost use Rattle.rs_result.specs.Counts.{AreCountsOf, column_values, counted, runs, value_counts, values_of};

use crate::ordering::{nth_value, value_cmp};
use crate::rows::{Count, ResultRow};
use ct_base::{Memory, Value};
use std::alloc::Global;

/// The values with this index that the rows have.
fn column_values<T>(
    alloc: Global,
    rows: &[ResultRow<T>],
    column: usize,
) -> Result<Vec<&Value>, Memory>
    ensures values { IfOk result (λ vs. values_of vs.items ≡ column_values column (map ranked rows.now)) }
    ensures few { IfOk result (λ vs. length vs.items ≤ length rows.now) }
{
    let mut values = Vec::new(alloc);
    let mut rest = rows;
    while let Some((row, others)) = rest.split_first() {
        if let Some(value) = nth_value(column, row) {
            values.push(value)?;
        }
        rest = others;
    }
    Ok(values)
}

/// How often each value stands among values that are in order, in this order.
fn runs<'a>(alloc: Global, values: &[&'a Value]) -> Result<Vec<Count<'a>>, Memory>
    requires { length values.now < 2 ^ 32 }
    ensures { IfOk result (λ counts. map counted counts.items ≡ runs (values_of values.now)) }
{
    let mut counts = Vec::new(alloc);
    let Some((first, others)) = values.split_first() else {
        return Ok(counts);
    };
    let mut value = *first;
    let mut n: u32 = 1;
    for other in others {
        if value_cmp(value, *other).is_eq() {
            n += 1;
            continue;
        }
        counts.push(Count { value, n })?;
        value = *other;
        n = 1;
    }
    counts.push(Count { value, n })?;
    Ok(counts)
}

/// How many of the rows have each value with this index, in order of value; numbers come before texts. A row without one isn't counted.
/// The values are lent, so no text is copied: it takes memory for one reference and one count a row, and makes some n log n comparisons
/// of n rows.
pub fn groups<'a, T>(
    alloc: Global,
    rows: &'a [ResultRow<T>],
    column: usize,
) -> Result<Vec<Count<'a>>, Memory>
    requires { length rows.now < 2 ^ 32 }
    ensures counts { IfOk result (λ counts. map counted counts.items ≡ value_counts (column_values column (map ranked rows.now))) }

    // the same as a relation, which has one such list only
    ensures exact { IfOk result (λ counts. AreCountsOf (column_values column (map ranked rows.now)) (map counted counts.items)) }
{
    let mut values = column_values(alloc, rows, column)?;
    values.sort_unstable_by(|value, other| value_cmp(value, other));
    runs(alloc, values.as_slice())
}
