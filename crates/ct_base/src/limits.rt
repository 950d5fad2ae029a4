//! The limits of what a store holds. The definitions of `specs/Limits.antt` have the same names.

/// How many bytes a name has at most.
pub const NAME_LIMIT: usize = 30;

/// How many bytes a token, a term or an anchor has at most.
pub const TOKEN_LIMIT: usize = 255;

/// How many bytes a text in a column has at most, whatever its sort.
pub const TEXT_LIMIT: u16 = 4000;

/// How many columns a table has at most, with its key.
pub const COLUMN_LIMIT: usize = 16;

/// How many rows a table has at most.
pub const ROW_LIMIT: u32 = 100_000;

/// How many tables there are at most.
pub const TABLE_LIMIT: usize = 64;
