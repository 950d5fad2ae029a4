//! The columns of tables.

use ct_base::Name;

/// What values a column has.
#[derive(Clone, Copy, Debug, PartialEq, Eq)]
pub enum Sort {
    /// Whole numbers of 64 bits with a sign.
    Number,
    /// Texts of at most so many bytes.
    Varchar2(u16),
    /// Texts of at most 4000 bytes.
    Clob,
}

/// A column of a table.
#[derive(Clone, Debug, Drop)]
pub struct Column {
    pub name: Name,
    pub sort: Sort,
}

/// A column of a table by its place, that of the key being 0: what an index is on.
#[derive(Clone, Debug, Drop)]
pub struct Target {
    pub table: Name,
    pub column: u8,
}
