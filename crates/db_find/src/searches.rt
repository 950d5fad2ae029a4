//! What text predicates ask.
#![tactic(auto)]

ghost use Rattle.std.specs.Prelude.{◌≡◌, length, nat_lt};
ghost use Rattle.std.specs.Option.{option_map};
ghost use Rattle.ct_base.specs.Limits.{text_limit};
ghost use Rattle.db_find.specs.Searches.{has_long_document as is_document_long, has_number_out_of_range as search_out_of_range, held_search, is_beyond_label, search_above, search_column, search_in as first_search, search_kind, search_label, search_of as search_of_pred, search_query, search_structured, text_or_empty as text_or_nothing, threshold_of};

use ct_base::{Name, TEXT_LIMIT, Text};
use db_names::IndexKind;
use st_parse::{Pred, Whole};

/// The highest score.
const HIGHEST: i64 = 100;

/// What a text predicate asks, by its kind.
#[derive(Clone, Copy)]
pub enum Search<'a> {
    /// The score of the query text in the column is above a number. SCORE with the label is that score.
    Contains {
        column: &'a Name,
        query: &'a str,
        label: Option<Whole>,
        above: Whole,
    },
    /// The text in the column meets the query text, and the row the conditions of the structured query, which orders the rows too. NULL is the empty text.
    Catsearch {
        column: &'a Name,
        query: &'a str,
        structured: &'a str,
    },
    /// The rule in the column holds of the document: its query has a score above 0 on it.
    Matches {
        column: &'a Name,
        document: &'a str,
    },
}

impl<'a> Search<'a> {
    /// The column that the predicate is on.
    pub fn column(self) -> &'a Name
        ensures { result.now ≡ search_column (held_search self.entry) }
    {
        match self {
            Search::Contains { column, .. } => column,
            Search::Catsearch { column, .. } => column,
            Search::Matches { column, .. } => column,
        }
    }

    /// The kind of the index that answers it.
    pub fn kind(self) -> IndexKind
        ensures { result ≡ search_kind (held_search self.entry) }
    {
        match self {
            Search::Contains { .. } => IndexKind::Context,
            Search::Catsearch { .. } => IndexKind::Catalogue,
            Search::Matches { .. } => IndexKind::Rules,
        }
    }

    /// The label by which SCORE asks for its score, where it has one.
    pub fn label(self) -> Option<Whole>
        ensures { result ≡ search_label (held_search self.entry) }
    {
        match self {
            Search::Contains { label, .. } => label,
            Search::Catsearch { .. } | Search::Matches { .. } => None,
        }
    }

    /// Its query text. Of MATCHES that is its document.
    pub(crate) fn query(self) -> &'a str
        ensures { result.now ≡ search_query (held_search self.entry) }
    {
        match self {
            Search::Contains { query, .. } => query,
            Search::Catsearch { query, .. } => query,
            Search::Matches { document, .. } => document,
        }
    }

    /// The number that the score is above. Of CATSEARCH and MATCHES that is 0.
    pub(crate) fn above(self) -> Whole
        ensures { result ≡ search_above (held_search self.entry) }
    {
        match self {
            Search::Contains { above, .. } => above,
            Search::Catsearch { .. } | Search::Matches { .. } => Whole::Fits(0),
        }
    }

    /// Its structured query. Of CONTAINS and MATCHES that is the empty text.
    pub(crate) fn structured(self) -> &'a str
        ensures { result.now ≡ search_structured (held_search self.entry) }
    {
        match self {
            Search::Contains { .. } | Search::Matches { .. } => "",
            Search::Catsearch { structured, .. } => structured,
        }
    }

    /// Whether one of its numbers is out of range: a label outside 64 bits, or a number for scores that isn't one from 0 to 100.
    pub fn has_number_out_of_range(self) -> bool
        ensures { result ≡ search_out_of_range (held_search self.entry) }
    {
        match self {
            Search::Contains { label, above, .. } => {
                is_beyond_label(label) || threshold_of(above).is_none()
            }
            Search::Catsearch { .. } | Search::Matches { .. } => false,
        }
    }

    /// Whether its document has over 4000 bytes. Only MATCHES has one.
    pub fn has_long_document(self) -> bool
        ensures { result ≡ is_document_long (held_search self.entry) }
    {
        match self {
            Search::Contains { .. } | Search::Catsearch { .. } => false,
            Search::Matches { document, .. } => is_long(document),
        }
    }
}

/// Whether a document has over 4000 bytes.
fn is_long(document: &str) -> bool
    ensures { result ≡ nat_lt text_limit (length document.now) }
{
    document.len() > usize::from(TEXT_LIMIT)
}

/// Whether the label is a number outside 64 bits.
fn is_beyond_label(label: Option<Whole>) -> bool
    ensures { result ≡ is_beyond_label label }
{
    match label {
        Some(Whole::Beyond) => true,
        Some(Whole::Fits(_)) | None => false,
    }
}

/// The number above which scores are, where it is from 0 to 100.
pub(crate) fn threshold_of(above: Whole) -> Option<u32>
    ensures { result ≡ threshold_of above }
{
    match above {
        Whole::Fits(n) => {
            if 0 <= n && n <= HIGHEST {
                Some(n as u32)
            } else {
                None
            }
        }
        Whole::Beyond => None,
    }
}

/// A text, or the empty one.
fn text_or_empty(text: &Option<Text>) -> &str
    ensures { result.now ≡ text_or_nothing text.now }
{
    match text {
        Some(text) => text.as_str(),
        None => "",
    }
}

/// What a predicate asks, if it is a text predicate.
fn search_of<'a>(pred: &'a Pred) -> Option<Search<'a>>
    ensures { option_map held_search result ≡ search_of_pred pred.now }
{
    match pred {
        Pred::Contains {
            column,
            query,
            label,
            above,
        } => Some(Search::Contains {
            column,
            query: query.as_str(),
            label: *label,
            above: *above,
        }),
        Pred::Catsearch {
            column,
            query,
            structured,
        } => Some(Search::Catsearch {
            column,
            query: query.as_str(),
            structured: text_or_empty(structured),
        }),
        Pred::Matches { column, document } => Some(Search::Matches {
            column,
            document: document.as_str(),
        }),
        Pred::Cond(_) => None,
    }
}

/// What the first text predicate among predicates asks. The grammar lets there be at most one.
pub fn search_in<'a>(preds: &'a [Pred]) -> Option<Search<'a>>
    ensures { option_map held_search result ≡ first_search preds.now }
{
    for pred in preds {
        if let Some(search) = search_of(pred) {
            return Some(search);
        }
    }
    None
}
