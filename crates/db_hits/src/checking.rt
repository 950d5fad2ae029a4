//! The checks of a descriptor against the columns of a table.
#![tactic(auto)]

ghost use Rattle.std.specs.Prelude.{◌≡◌, ◌∷◌, [], false, IfNone};
ghost use Rattle.std.specs.List.{flat_map, list_all, list_any};
ghost use Rattle.std.specs.Option.{option_map};
ghost use Rattle.db_state.specs.Columns.{first_unknown};
ghost use Rattle.db_state.specs.Effects.{Effect, Checks};
ghost use Rattle.db_rows.specs.Checking.{fit_sort};
ghost use Rattle.db_hits.specs.Calling.{check_parts};
ghost use Rattle.db_hits.specs.Descriptors.{fit_parts as parts_fit, fits_column as column_fits, fits_key as key_fits, fits_part as part_fits, has_bad_cut as any_bad_cut, is_bad_cut as bad_cut, is_in_part as in_part, is_key as key_is, is_named as descriptor_names, key_column as column_of_key, named_columns, part_columns};

use ct_base::Name;
use db_cond::Fault;
use db_rows::sort_of;
use db_state::has_column;
use rs_result::{HitKey, ResultPart};
use tb_table::{Column, Sort};

/// The column, where it isn't there.
fn unknown<'a>(name: &'a Name, columns: &[Column]) -> Option<&'a Name>
    ensures { option_map (λ name. name.now) result ≡ first_unknown (name.now ∷ []) columns.now }
{
    if has_column(name, columns) {
        None
    } else {
        Some(name)
    }
}

/// The column that a key names, if it names one and that isn't there.
fn unknown_in_key<'a>(key: &'a HitKey, columns: &[Column]) -> Option<&'a Name>
    ensures { option_map (λ name. name.now) result ≡ first_unknown (column_of_key key.now) columns.now }
{
    match key {
        HitKey::Score(_) => None,
        HitKey::Column(name, _) => unknown(name, columns),
    }
}

/// The first column of the keys that isn't there.
fn unknown_key<'a>(keys: &'a [HitKey], columns: &[Column]) -> Option<&'a Name>
    ensures { option_map (λ name. name.now) result ≡ first_unknown (flat_map column_of_key keys.now) columns.now }
{
    for key in keys {
        if let Some(name) = unknown_in_key(key, columns) {
            return Some(name);
        }
    }
    None
}

/// The first column of a part that isn't there.
fn unknown_in<'a>(part: &'a ResultPart, columns: &[Column]) -> Option<&'a Name>
    ensures { option_map (λ name. name.now) result ≡ first_unknown (part_columns part.now) columns.now }
{
    match part {
        ResultPart::Count => None,
        ResultPart::Hits { keys, .. } => unknown_key(keys.as_slice(), columns),
        ResultPart::Group(name) => unknown(name, columns),
    }
}

/// The first column of the parts that isn't there. Its cost is the number of their columns times that of the table's.
fn unknown_column<'a>(parts: &'a [ResultPart], columns: &[Column]) -> Option<&'a Name>
    ensures { option_map (λ name. name.now) result ≡ first_unknown (named_columns parts.now) columns.now }
{
    for part in parts {
        if let Some(name) = unknown_in(part, columns) {
            return Some(name);
        }
    }
    None
}

/// Whether the key is the column of the name.
fn is_key(name: &Name, key: &HitKey) -> bool
    ensures { result ≡ key_is name.now key.now }
{
    match key {
        HitKey::Score(_) => false,
        HitKey::Column(column, _) => name.as_str() == column.as_str(),
    }
}

/// Whether one of the keys is the column of the name.
fn is_among(name: &Name, keys: &[HitKey]) -> bool
    ensures { result ≡ list_any (key_is name.now) keys.now }
{
    keys.iter().any(|key| is_key(name, key))
}

/// Whether the part names the column of the name.
fn is_in_part(name: &Name, part: &ResultPart) -> bool
    ensures { result ≡ in_part name.now part.now }
{
    match part {
        ResultPart::Count => false,
        ResultPart::Hits { keys, .. } => is_among(name, keys.as_slice()),
        ResultPart::Group(column) => name.as_str() == column.as_str(),
    }
}

/// Whether one of the parts names the column.
pub(crate) fn is_named(parts: &[ResultPart], column: &Column) -> bool
    ensures { result ≡ descriptor_names parts.now column.now }
{
    parts.iter().any(|part| is_in_part(&column.name, part))
}

/// Whether hits may be ordered by values of this sort, and counted by them.
fn is_comparable(sort: Option<Sort>) -> bool
    ensures { result ≡ fit_sort [] sort }
{
    match sort {
        Some(Sort::Number | Sort::Varchar2(_)) => true,
        Some(Sort::Clob) | None => false,
    }
}

/// Whether the column of the name is no CLOB.
fn fits_column(columns: &[Column], name: &Name) -> bool
    ensures { result ≡ column_fits columns.now name.now }
{
    is_comparable(sort_of(name, columns))
}

/// Whether the key is the score, or a column that is no CLOB.
fn fits_key(columns: &[Column], key: &HitKey) -> bool
    ensures { result ≡ key_fits columns.now key.now }
{
    match key {
        HitKey::Score(_) => true,
        HitKey::Column(name, _) => fits_column(columns, name),
    }
}

/// Whether each of the keys is.
fn fit_keys(columns: &[Column], keys: &[HitKey]) -> bool
    ensures { result ≡ list_all (key_fits columns.now) keys.now }
{
    keys.iter().all(|key| fits_key(columns, key))
}

/// Whether the part names no CLOB.
fn fits_part(columns: &[Column], part: &ResultPart) -> bool
    ensures { result ≡ part_fits columns.now part.now }
{
    match part {
        ResultPart::Count => true,
        ResultPart::Hits { keys, .. } => fit_keys(columns, keys.as_slice()),
        ResultPart::Group(name) => fits_column(columns, name),
    }
}

/// Whether no part names a CLOB. Its cost is the number of their columns times that of the table's.
fn fit_parts(columns: &[Column], parts: &[ResultPart]) -> bool
    ensures { result ≡ parts_fit columns.now parts.now }
{
    parts.iter().all(|part| fits_part(columns, part))
}

/// Whether the part asks for hits from a number out of its range, or from a greater one than to.
fn is_bad_cut(part: &ResultPart) -> bool
    ensures { result ≡ bad_cut part.now }
{
    match part {
        ResultPart::Count => false,
        ResultPart::Hits { first, last, .. } => *first == 0 || last < first,
        ResultPart::Group(_) => false,
    }
}

/// Whether one of the parts does.
fn has_bad_cut(parts: &[ResultPart]) -> bool
    ensures { result ≡ any_bad_cut parts.now }
{
    parts.iter().any(|part| is_bad_cut(part))
}

/// The first check that fails, where the table has these columns, by whether the index is of another kind and whether the arguments are
/// three texts.
pub(crate) fn parts_fault<'a>(
    columns: &[Column],
    other: bool,
    texts: bool,
    parts: &'a [ResultPart],
) -> Option<Fault<'a>>
    ensures checks { (done : Effect) → Checks result (check_parts columns.now other texts parts.now done) done }
    ensures cuts { IfNone result (any_bad_cut parts.now ≡ false) }
    ensures kind { IfNone result (other ≡ false) }
{
    if let Some(name) = unknown_column(parts, columns) {
        return Some(Fault::UnknownName(name.as_str()));
    }
    if other {
        return Some(Fault::NoIndexOfKind);
    }
    if !texts || !fit_parts(columns, parts) {
        return Some(Fault::WrongValues);
    }
    if has_bad_cut(parts) {
        return Some(Fault::OutOfRange);
    }
    None
}
