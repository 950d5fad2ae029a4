//! Changes of a directory.

use pg_directory::EntryAt;

/// What becomes of a key: where its entry stands from then on, or that it has none.
#[derive(Debug, Drop)]
pub struct Edit {
    pub key: Vec<u8>,
    pub place: Option<EntryAt>,
}
