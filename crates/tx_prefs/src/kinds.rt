//! The kinds of what is defined for indexes.

ghost use Rattle.std.specs.Prelude.{◌≡◌};
ghost use Rattle.tx_prefs.specs.Spelling.{entry_kind};

use ct_entry::Kind;

/// The kinds of definitions that an index may name.
#[derive(Clone, Copy, Debug, PartialEq, Eq)]
pub enum PrefKind {
    /// A lexer preference.
    Lexer,
    Stoplist,
    SectionGroup,
    IndexSet,
}

impl PrefKind {
    /// The kind of its entries.
    pub(crate) fn entry_kind(self) -> Kind
        ensures { result ≡ entry_kind self }
    {
        match self {
            PrefKind::Lexer => Kind::Preferences,
            PrefKind::Stoplist => Kind::Stoplists,
            PrefKind::SectionGroup => Kind::SectionGroups,
            PrefKind::IndexSet => Kind::IndexSets,
        }
    }
}
