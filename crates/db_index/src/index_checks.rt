//! What is checked before an index is made, but for what is looked up.

ghost use Rattle.std.specs.Prelude.{◌≡◌, None, true};
ghost use Rattle.ix_kinds.specs.Targets.{is_text_at as text_at, is_text_sort as sort_of_texts};
ghost use Rattle.db_state.specs.Effects.{Effect, Checks};
ghost use Rattle.db_index.specs.Indexing.{check_flags, threads_taken, is_degree as degree_is};

use ct_base::Name;
use db_cond::Fault;
use st_parse::Whole;
use tb_table::{Column, Sort};

/// How many threads PARALLEL may give.
const DEGREE_LIMIT: i64 = 16;

/// Whether the type is one of texts.
fn is_text_sort(sort: Sort) -> bool
    ensures { result ≡ sort_of_texts sort }
{
    match sort {
        Sort::Number => false,
        Sort::Varchar2(_) | Sort::Clob => true,
    }
}

/// Whether a column of texts stands at a place.
pub(crate) fn is_text_at(columns: &[Column], place: usize) -> bool
    ensures { result ≡ text_at columns.now place }
{
    let mut before = place;
    for column in columns {
        if before == 0 {
            return is_text_sort(column.sort);
        }
        before -= 1;
    }
    false
}

/// The first check that fails.
pub(crate) fn index_fault<'a>(
    there: bool,
    texts: bool,
    formed: bool,
    ranged: bool,
    many: bool,
    index: &'a Name,
) -> Option<Fault<'a>>
    ensures checks { (done : Effect) → Checks result (check_flags there texts formed ranged many index.now done) done }
    ensures formed { result ≡ None → formed ≡ true }
{
    let name = index.as_str();
    if there {
        return Some(Fault::ExistsAlready(name));
    }
    if !texts {
        return Some(Fault::WrongValues);
    }
    if !formed {
        return Some(Fault::BadValue);
    }
    if !ranged {
        return Some(Fault::OutOfRange);
    }
    if many {
        return Some(Fault::LimitReached);
    }
    None
}

/// Whether PARALLEL gives a number of threads from 1 to 16, or isn't there.
pub(crate) fn is_degree(parallel: &Option<Whole>) -> bool
    ensures { result ≡ degree_is parallel.now }
{
    match parallel {
        None => true,
        Some(Whole::Fits(threads)) => 1 <= *threads && *threads <= DEGREE_LIMIT,
        Some(Whole::Beyond) => false,
    }
}

/// How many threads PARALLEL gives, or so many where it isn't there.
pub(crate) fn degree_by(parallel: &Option<Whole>, degree: u32) -> u32
    ensures { result ≡ threads_taken parallel.now degree }
{
    match parallel {
        Some(Whole::Fits(threads)) if 1 <= *threads && *threads <= DEGREE_LIMIT => *threads as u32,
        _ => degree,
    }
}
