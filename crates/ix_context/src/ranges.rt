//! Ranges of row keys.

ghost use Rattle.std.specs.Prelude.{◌≡◌};
ghost use Rattle.ix_context.specs.Indexes.{is_key_in};

use ct_base::RowKey;

/// The row keys from one to another, both included.
#[derive(Clone, Copy, Debug, PartialEq, Eq)]
pub struct KeyRange {
    pub from: RowKey,
    pub to: RowKey,
}

impl KeyRange {
    /// All row keys.
    pub const ALL: KeyRange = KeyRange {
        from: RowKey(i64::MIN),
        to: RowKey(i64::MAX),
    };

    /// Whether the key lies in the range.
    pub fn contains(self, key: RowKey) -> bool
        ensures { result ≡ is_key_in self key.0 }
    {
        self.from <= key && key <= self.to
    }
}
