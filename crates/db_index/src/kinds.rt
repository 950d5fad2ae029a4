//! The kinds of indexes that CREATE INDEX makes.

ghost use Rattle.std.specs.Prelude.{◌≡◌};
ghost use Rattle.tx_prefs.specs.Requests.{asks_only};
ghost use Rattle.db_index.specs.Kinds.{built_kind, index_kind, requests_taken};

use db_names::IndexKind;
use st_parse::IndexKind as StatementKind;
use tx_prefs::{PrefKind, Request, asks_only};

/// The kind of a new index.
#[derive(Clone, Copy, Debug, PartialEq, Eq)]
pub enum BuiltKind {
    /// CONTEXT.
    Context,
    /// CTXCAT.
    Catalogue,
    /// CTXRULE.
    Rules,
}

/// The kind that a statement asks for.
pub fn built_kind(kind: StatementKind) -> BuiltKind
    ensures { result ≡ built_kind kind }
{
    match kind {
        StatementKind::Context => BuiltKind::Context,
        StatementKind::Ctxcat => BuiltKind::Catalogue,
        StatementKind::Ctxrule => BuiltKind::Rules,
    }
}

/// The kind that such an index has.
pub(crate) fn index_kind(kind: BuiltKind) -> IndexKind
    ensures { result ≡ index_kind kind }
{
    match kind {
        BuiltKind::Context => IndexKind::Context,
        BuiltKind::Catalogue => IndexKind::Catalogue,
        BuiltKind::Rules => IndexKind::Rules,
    }
}

/// Whether the PARAMETERS of such an index may have these requests.
pub(crate) fn takes_requests(kind: BuiltKind, requests: &[Request]) -> bool
    ensures { result ≡ asks_only (requests_taken kind) requests.now }
{
    match kind {
        BuiltKind::Context | BuiltKind::Rules => asks_only(
            &[PrefKind::Lexer, PrefKind::Stoplist, PrefKind::SectionGroup],
            requests,
        ),
        BuiltKind::Catalogue => asks_only(
            &[PrefKind::Lexer, PrefKind::Stoplist, PrefKind::IndexSet],
            requests,
        ),
    }
}
