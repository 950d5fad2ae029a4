//! What an index is: its kind, its table and its column.

ghost use Rattle.std.specs.Prelude.{◌≡◌};
ghost use Rattle.db_names.specs.Heads.{index_code};

use tb_table::Target;

/// The kind of an index.
#[derive(Clone, Copy, Debug, PartialEq, Eq)]
pub enum IndexKind {
    /// CONTEXT: the documents of a column by their changes.
    Context,
    /// CTXCAT: short texts with sub-indexes.
    Catalogue,
    /// CTXRULE: queries by the documents that they match.
    Rules,
}

impl IndexKind {
    /// The byte with which the entries of such indexes begin.
    pub fn code(self) -> u8
        ensures { result ≡ index_code self }
    {
        match self {
            IndexKind::Context => 1,
            IndexKind::Catalogue => 2,
            IndexKind::Rules => 3,
        }
    }
}

/// What the entry of each index begins with, whatever its kind.
#[derive(Clone, Debug, Drop)]
pub struct IndexHead {
    pub kind: IndexKind,
    pub target: Target,
}
