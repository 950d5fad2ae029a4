//! What a SELECT finds.
#![tactic(auto)]

use db_rows::RowRead;
use ix_search::Hit;

/// A row that was found, with what is kept of what was read of it.
#[derive(Drop)]
pub(crate) struct FoundRow {
    pub hit: Hit,
    pub read: RowRead,
}

/// What a SELECT finds.
#[derive(Drop)]
pub(crate) enum Selected {
    /// No rows, since it is refused, with this line.
    Refused(Vec<u8>),
    /// Rows in the order in which they are shown.
    Rows(Vec<FoundRow>),
}
