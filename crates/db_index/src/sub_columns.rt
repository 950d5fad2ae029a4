//! The columns that an index set names, against those of a table.

ghost use Rattle.std.specs.Prelude.{◌≡◌, is_some};
ghost use Rattle.std.specs.List.{list_all};
ghost use Rattle.std.specs.Option.{option_map};
ghost use Rattle.db_state.specs.Columns.{first_unknown};
ghost use Rattle.db_index.specs.Asking.{are_sub_columns, columns_named, fitting, is_sub_column, is_sub_sort};

use crate::asking::Wanted;
use ct_base::Name;
use db_state::has_column;
use tb_table::{Column, Sort};
use tx_sets::SubIndex;

/// How many bytes a text in a column of a sub-index has at most.
const SUB_TEXT_LIMIT: u16 = 100;

/// The first of the names that is no column's.
fn unknown_name<'a>(names: &'a [Name], columns: &[Column]) -> Option<&'a Name>
    ensures { option_map (λ name. name.now) result ≡ first_unknown names.now columns.now }
{
    let mut rest = names;
    while let [name, later @ ..] = rest {
        if !has_column(name, columns) {
            return Some(name);
        }
        rest = later;
    }
    None
}

/// The first column of sub-indexes that isn't among these.
pub(crate) fn unknown_column<'a>(subs: &'a [SubIndex], columns: &[Column]) -> Option<&'a Name>
    ensures { option_map (λ name. name.now) result ≡ first_unknown (columns_named subs.now) columns.now }
{
    let mut rest = subs;
    'each: while let Some((names, later)) = rest.split_first() {
        let unknown = unknown_name(names.as_slice(), columns);
        if unknown.is_some() {
            return unknown;
        }
        rest = later;
    }
    None
}

/// Whether a column of this type may be in a sub-index.
fn is_sub_sort(sort: Sort) -> bool
    ensures { result ≡ is_sub_sort sort }
{
    match sort {
        Sort::Number => true,
        Sort::Varchar2(size) => size <= SUB_TEXT_LIMIT,
        Sort::Clob => false,
    }
}

/// Whether the column with this name may be in a sub-index.
fn is_sub_column(name: &Name, columns: &[Column]) -> bool
    ensures { result ≡ is_sub_column columns.now name.now }
{
    let name = name.as_str();
    let mut rest = columns;
    while let [column, later @ ..] = rest {
        if name == column.name.as_str() {
            return is_sub_sort(column.sort);
        }
        rest = later;
    }
    false
}

/// Whether all columns with these names may.
fn are_each(names: &[Name], columns: &[Column]) -> bool
    ensures { result ≡ list_all (is_sub_column columns.now) names.now }
{
    let mut rest = names;
    while let [name, later @ ..] = rest {
        if !is_sub_column(name, columns) {
            return false;
        }
        rest = later;
    }
    true
}

/// Whether all columns of these sub-indexes may.
fn are_sub_columns(subs: &[SubIndex], columns: &[Column]) -> bool
    ensures { result ≡ are_sub_columns columns.now subs.now }
{
    let mut rest = subs;
    while let [names, later @ ..] = rest {
        if !are_each(names.as_slice(), columns) {
            return false;
        }
        rest = later;
    }
    true
}

/// Whether something is wanted, and each of its sub-indexes may be in an index on a table with these columns. Its cost is the number of
/// columns, for each column of a sub-index.
pub(crate) fn is_fitting(wanted: &Option<Wanted>, columns: &[Column]) -> bool
    ensures { result ≡ is_some (fitting columns.now wanted.now) }
{
    match wanted {
        None => false,
        Some(wanted) => are_sub_columns(wanted.subs.as_slice(), columns),
    }
}
