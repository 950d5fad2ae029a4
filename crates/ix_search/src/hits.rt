//! What queries find.

use ct_base::RowKey;

/// A row that a query finds.
#[derive(Clone, Copy, Debug, PartialEq, Eq)]
pub struct Hit {
    pub key: RowKey,
    /// From 1 to 100.
    pub score: u32,
}
