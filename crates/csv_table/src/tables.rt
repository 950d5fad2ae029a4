//! The table that a CSV text is.

use ct_base::{Listed, Name, Text};

/// The type of a column.
#[derive(Clone, Copy, Debug)]
pub enum Sort {
    Number,
    /// A text of at most so many bytes.
    Text(u16),
    /// A text of more bytes than a VARCHAR2 takes. No field has so many, so no table of a CSV text has a column of it.
    Long,
}

/// A column, with its name in lower case.
#[derive(Debug, Drop)]
pub struct Column {
    pub name: Name,
    pub sort: Sort,
}

/// A record of the text: the value of the key, and those of the other columns in their order.
#[derive(Debug, Drop)]
pub struct Row {
    /// The line on which the record begins, counted from 1.
    pub line: u64,
    pub key: Text,
    pub values: Listed<Text>,
}

/// A table with its rows. The key is its first column.
#[derive(Debug, Drop)]
pub struct Table {
    pub name: Name,
    pub key: Name,
    /// The columns but the key.
    pub columns: Listed<Column>,
    pub rows: Listed<Row>,
}
