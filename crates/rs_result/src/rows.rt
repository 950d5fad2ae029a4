//! Rows that were found, the keys of their order, and counts of their values.

use ct_base::{RowKey, Value};

/// A row that was found.
#[derive(Drop)]
pub struct ResultRow<T> {
    pub key: RowKey,
    pub score: u32,
    /// The values that the order and the counts ask for, by the index of `By::Column`; None where the row has none in that column.
    pub values: Vec<Option<Value>>,
    /// What goes along with the row. The order doesn't look at it.
    pub item: T,
}

/// What rows are ordered by.
#[derive(Clone, Copy, Debug, PartialEq, Eq)]
pub enum By {
    Score,
    /// The value with this index, counted from 0.
    Column(usize),
}

/// A key of the order.
#[derive(Clone, Copy, Debug, PartialEq, Eq)]
pub struct OrderBy {
    pub by: By,
    /// Whether the greatest comes first.
    pub down: bool,
}

/// A value, and how many of the rows have it.
#[derive(Clone, Copy)]
pub struct Count<'a> {
    pub value: &'a Value,
    pub n: u32,
}
