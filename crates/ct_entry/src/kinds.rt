//! The kinds of entries.

ghost use Rattle.std.specs.Prelude.{◌≡◌};
ghost use Rattle.ct_entry.specs.Kinds.{code};
ghost use Rattle.ct_entry.specs.KeyParts.{SpellsKind};

/// Every kind.
const KINDS: [Kind; 19] = [
    Kind::Tables,
    Kind::RowNumbers,
    Kind::RowTexts,
    Kind::Preferences,
    Kind::Stoplists,
    Kind::SectionGroups,
    Kind::IndexSets,
    Kind::Thesauri,
    Kind::Relations,
    Kind::Indexes,
    Kind::DocumentRows,
    Kind::RowDocuments,
    Kind::Pending,
    Kind::Postings,
    Kind::Spans,
    Kind::Catalogue,
    Kind::Rules,
    Kind::Anchors,
    Kind::RuleFaults,
];

/// The kind of an entry. Each key begins with the byte of its kind.
#[derive(Clone, Copy, Debug, PartialEq, Eq)]
pub enum Kind {
    /// A table: its columns.
    Tables,
    /// A row of a table: its numbers.
    RowNumbers,
    /// A text of a row.
    RowTexts,
    /// A lexer preference.
    Preferences,
    Stoplists,
    SectionGroups,
    IndexSets,
    Thesauri,
    /// A pair of terms of a thesaurus.
    Relations,
    /// An index: its target, what it copied, and its counters.
    Indexes,
    /// The row of a document of an index.
    DocumentRows,
    /// The document of a row in an index.
    RowDocuments,
    /// A row that waits for the next synchronisation of an index.
    Pending,
    /// Postings of a token.
    Postings,
    /// Instances of a section.
    Spans,
    /// A token of a row in a catalogue index.
    Catalogue,
    /// The reduced query of a rule.
    Rules,
    /// A key under which a rule is found.
    Anchors,
    /// Why a rule couldn't be taken.
    RuleFaults,
}

impl Kind {
    /// The byte with which the keys of the kind begin.
    pub fn code(self) -> u8
        ensures { result ≡ code self }
    {
        match self {
            Kind::Tables => 0x01,
            Kind::RowNumbers => 0x02,
            Kind::RowTexts => 0x03,
            Kind::Preferences => 0x10,
            Kind::Stoplists => 0x11,
            Kind::SectionGroups => 0x12,
            Kind::IndexSets => 0x13,
            Kind::Thesauri => 0x14,
            Kind::Relations => 0x15,
            Kind::Indexes => 0x20,
            Kind::DocumentRows => 0x21,
            Kind::RowDocuments => 0x22,
            Kind::Pending => 0x23,
            Kind::Postings => 0x24,
            Kind::Spans => 0x25,
            Kind::Catalogue => 0x28,
            Kind::Rules => 0x2a,
            Kind::Anchors => 0x2b,
            Kind::RuleFaults => 0x2c,
        }
    }

    /// The kind whose keys begin with this byte.
    pub fn of_code(code: u8) -> Option<Kind>
        ensures { SpellsKind code result }
    {
        for kind in KINDS {
            if kind.code() == code {
                return Some(kind);
            }
        }
        None
    }
}
