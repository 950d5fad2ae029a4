//! The values that an UPDATE sets: their checks.
#![tactic(auto)]

ghost use Rattle.std.specs.Prelude.{◌≡◌, ◌≤◌, ◌++◌, ◌||◌, None, true, false, length};
ghost use Rattle.std.specs.Option.{option_map};
ghost use Rattle.std.specs.List.{list_any, list_all, All};
ghost use Rattle.ct_base.specs.Limits.{column_limit};
ghost use Rattle.ct_entry.specs.Keys.{same_list};
ghost use Rattle.st_parse.specs.declared.statements.Assign.{Assign};
ghost use Rattle.db_state.specs.Effects.{Effect, Checks};
ghost use Rattle.db_state.specs.Columns.{first_unknown as unknown_name};
ghost use Rattle.db_rows.specs.Checking.{cond_columns, is_beyond_operand};
ghost use Rattle.db_change.specs.Inserting.{is_of_sort as sort_takes, is_too_long as too_long_for, IsShortValue};
ghost use Rattle.db_change.specs.Updating.{assign_columns, check_update, has_twice as any_twice, is_wrong_update, of_its_sort, sets_key as key_is_set, IsShortAssign};

use crate::inserting::{is_beyond, is_of_sort, is_too_long};
use ct_base::{COLUMN_LIMIT, Name};
use db_cond::Fault;
use db_rows::{fit_columns, has_beyond, sort_of, unknown_column};
use db_state::has_column;
use st_parse::{Assign, Cond};
use tb_table::Column;

// ---- the columns

/// The first column that is set and isn't there.
fn unknown_assign<'a>(assigns: &'a [Assign], columns: &[Column]) -> Option<&'a Name>
    ensures { option_map (λ name. name.now) result ≡ unknown_name (assign_columns assigns.now) columns.now }
{
    for assign in assigns {
        if !has_column(&assign.column, columns) {
            return Some(&assign.column);
        }
    }
    None
}

/// The first column of the statement that isn't there.
#[tactic(auto, using(crate::proofs::AssignSteps::unknown_append))]
fn unknown_in<'a>(assigns: &'a [Assign], conds: &'a [Cond], columns: &[Column]) -> Option<&'a Name>
    ensures { option_map (λ name. name.now) result ≡ unknown_name (assign_columns assigns.now ++ cond_columns conds.now) columns.now }
{
    match unknown_assign(assigns, columns) {
        Some(name) => Some(name),
        None => unknown_column(conds, columns),
    }
}

/// Whether the column is set.
fn is_set(name: &Name, assigns: &[Assign]) -> bool
    ensures { result ≡ list_any (same_list name.now) (assign_columns assigns.now) }
{
    for assign in assigns {
        if name.as_str() == assign.column.as_str() {
            return true;
        }
    }
    false
}

/// Whether the key is set.
fn sets_key(columns: &[Column], assigns: &[Assign]) -> bool
    ensures { result ≡ key_is_set columns.now assigns.now }
{
    match columns {
        [] => false,
        [key, ..] => is_set(&key.name, assigns),
    }
}

/// Whether a column is set twice.
fn has_twice(assigns: &[Assign]) -> bool
    ensures { result ≡ any_twice (assign_columns assigns.now) }
{
    let mut rest = assigns;
    while let [first, others @ ..] = rest {
        if is_set(&first.column, others) {
            return true;
        }
        rest = others;
    }
    false
}

// ---- the values

/// Whether the column of the value is there, and takes such a value.
fn is_taken(columns: &[Column], assign: &Assign) -> bool
    ensures { result ≡ of_its_sort sort_takes columns.now assign.now }
{
    match sort_of(&assign.column, columns) {
        Some(sort) => is_of_sort(sort, &assign.value),
        None => false,
    }
}

fn are_taken(columns: &[Column], assigns: &[Assign]) -> bool
    ensures { result ≡ list_all (of_its_sort sort_takes columns.now) assigns.now }
{
    assigns.iter().all(|assign| is_taken(columns, assign))
}

/// Whether the value is longer than its column takes.
fn is_longer(columns: &[Column], assign: &Assign) -> bool
    ensures long { result ≡ of_its_sort too_long_for columns.now assign.now }
    ensures short { of_its_sort sort_takes columns.now assign.now ≡ true → result ≡ false → IsShortValue assign.now.value }
{
    match sort_of(&assign.column, columns) {
        Some(sort) => is_too_long(sort, &assign.value),
        None => false,
    }
}

/// Whether a value is longer than its column takes.
fn has_longer(columns: &[Column], assigns: &[Assign]) -> bool
    ensures long { result ≡ list_any (of_its_sort too_long_for columns.now) assigns.now }
    ensures short { list_all (of_its_sort sort_takes columns.now) assigns.now ≡ true → result ≡ false → All IsShortAssign assigns.now }
{
    for assign in assigns {
        if is_longer(columns, assign) {
            return true;
        }
    }
    false
}

/// Whether a value is a number outside 64 bits.
fn has_assign_beyond(assigns: &[Assign]) -> bool
    ensures { result ≡ list_any (λ (a : Assign). is_beyond_operand a.value) assigns.now }
{
    assigns.iter().any(|assign| is_beyond(&assign.value))
}

/// Whether the key or a column twice is set, or a value or a condition is of another type than its column.
fn is_wrong(columns: &[Column], assigns: &[Assign], conds: &[Cond]) -> bool
    ensures { result ≡ is_wrong_update columns.now assigns.now conds.now }
{
    sets_key(columns, assigns)
        || has_twice(assigns)
        || !are_taken(columns, assigns)
        || !fit_columns(conds, columns)
}

/// The first check that fails of an UPDATE of a table with these columns. No state has a table of more than 16 columns, but a store
/// that stands for no state may; that is refused, since `tb_table::update` takes no more numbers.
pub(crate) fn update_fault<'a>(
    columns: &[Column],
    assigns: &'a [Assign],
    conds: &'a [Cond],
) -> Option<Fault<'a>>
    ensures checks { length columns.now ≤ column_limit → (done : Effect) → Checks result (check_update columns.now assigns.now conds.now done) done }
    ensures few { result ≡ None → length columns.now ≤ column_limit }
    ensures short { result ≡ None → All IsShortAssign assigns.now }
{
    if columns.len() > COLUMN_LIMIT {
        return Some(Fault::WrongValues);
    }
    if let Some(name) = unknown_in(assigns, conds, columns) {
        return Some(Fault::UnknownName(name.as_str()));
    }
    if is_wrong(columns, assigns, conds) {
        return Some(Fault::WrongValues);
    }
    if has_longer(columns, assigns) {
        return Some(Fault::ValueTooLong);
    }
    if has_assign_beyond(assigns) || has_beyond(conds) {
        return Some(Fault::OutOfRange);
    }
    None
}
