//! The checks of conditions against the columns of a table.

ghost use Rattle.std.specs.Prelude.{◌≡◌, [], ◌∷◌};
ghost use Rattle.std.specs.List.{list_all, list_any};
ghost use Rattle.std.specs.Option.{option_map};
ghost use Rattle.db_state.specs.Columns.{first_unknown};
ghost use Rattle.db_state.specs.Effects.{Effect, Checks};
ghost use Rattle.db_rows.specs.Checking.{check_conds, cond_column as column_of_cond, cond_columns, fit_columns as all_fit, fit_sort, fits_cond as cond_fits, has_beyond as any_beyond, is_beyond_cond as cond_is_beyond, is_beyond_operand as operand_is_beyond, is_number_operand as is_a_number, is_text_operand as is_a_text, sort_of as column_sort};

use ct_base::Name;
use db_cond::Fault;
use db_state::has_column;
use st_parse::{Cond, Operand, Whole};
use tb_table::{Column, Sort};

/// The column that a condition is on.
pub fn cond_column(cond: &Cond) -> &Name
    ensures { result.now ≡ column_of_cond cond.now }
{
    match cond {
        Cond::Compare { column, .. } => column,
        Cond::Between { column, .. } => column,
        Cond::OneOf { column, .. } => column,
    }
}

/// The first column of the conditions that isn't there.
pub fn unknown_column<'a>(conds: &'a [Cond], columns: &[Column]) -> Option<&'a Name>
    ensures { option_map (λ name. name.now) result ≡ first_unknown (cond_columns conds.now) columns.now }
{
    for cond in conds {
        let name = cond_column(cond);
        if !has_column(name, columns) {
            return Some(name);
        }
    }
    None
}

fn is_number_operand(operand: &Operand) -> bool
    ensures { result ≡ is_a_number operand.now }
{
    matches!(operand, Operand::Number(_))
}

fn is_text_operand(operand: &Operand) -> bool
    ensures { result ≡ is_a_text operand.now }
{
    matches!(operand, Operand::Text(_))
}

/// The sort of the column with this name. Its cost is the number of columns.
pub fn sort_of(name: &Name, columns: &[Column]) -> Option<Sort>
    ensures { result ≡ column_sort name.now columns.now }
{
    let name = name.as_str();
    for column in columns {
        if name == column.name.as_str() {
            return Some(column.sort);
        }
    }
    None
}

/// Whether the values of this sort are compared with such an operand.
fn fits_one(sort: Option<Sort>, operand: &Operand) -> bool
    ensures { result ≡ fit_sort (operand.now ∷ []) sort }
{
    match sort {
        Some(Sort::Number) => is_number_operand(operand),
        Some(Sort::Varchar2(_)) => is_text_operand(operand),
        Some(Sort::Clob) | None => false,
    }
}

fn are_numbers(operands: &[Operand]) -> bool
    ensures { result ≡ list_all is_a_number operands.now }
{
    operands.iter().all(|operand| is_number_operand(operand))
}

fn are_texts(operands: &[Operand]) -> bool
    ensures { result ≡ list_all is_a_text operands.now }
{
    operands.iter().all(|operand| is_text_operand(operand))
}

/// Whether the values of this sort are compared with such operands.
fn fits_each(sort: Option<Sort>, operands: &[Operand]) -> bool
    ensures { result ≡ fit_sort operands.now sort }
{
    match sort {
        Some(Sort::Number) => are_numbers(operands),
        Some(Sort::Varchar2(_)) => are_texts(operands),
        Some(Sort::Clob) | None => false,
    }
}

/// Whether the column of the condition is there, and its values are compared with such operands.
pub fn fits_cond(cond: &Cond, columns: &[Column]) -> bool
    ensures { result ≡ cond_fits columns.now cond.now }
{
    let sort = sort_of(cond_column(cond), columns);
    match cond {
        Cond::Compare { value, .. } => fits_one(sort, value),
        Cond::Between { low, high, .. } => fits_one(sort, low) && fits_one(sort, high),
        Cond::OneOf { values, .. } => fits_each(sort, values.as_slice()),
    }
}

/// Whether each condition is on a column that is there, and compares its values with such as it has. Its cost is the number of
/// conditions times that of columns, and that of operands.
pub fn fit_columns(conds: &[Cond], columns: &[Column]) -> bool
    ensures { result ≡ all_fit columns.now conds.now }
{
    conds.iter().all(|cond| fits_cond(cond, columns))
}

fn is_beyond(operand: &Operand) -> bool
    ensures { result ≡ operand_is_beyond operand.now }
{
    match operand {
        Operand::Number(Whole::Beyond) => true,
        Operand::Number(Whole::Fits(_)) | Operand::Text(_) => false,
    }
}

/// Whether one of the operands is a number outside 64 bits.
fn is_one_beyond(operands: &[Operand]) -> bool
    ensures { result ≡ list_any operand_is_beyond operands.now }
{
    operands.iter().any(|operand| is_beyond(operand))
}

/// Whether a number of the condition is outside 64 bits.
fn is_cond_beyond(cond: &Cond) -> bool
    ensures { result ≡ cond_is_beyond cond.now }
{
    match cond {
        Cond::Compare { value, .. } => is_beyond(value),
        Cond::Between { low, high, .. } => is_beyond(low) || is_beyond(high),
        Cond::OneOf { values, .. } => is_one_beyond(values.as_slice()),
    }
}

/// Whether a number of the conditions is outside 64 bits.
pub fn has_beyond(conds: &[Cond]) -> bool
    ensures { result ≡ any_beyond conds.now }
{
    conds.iter().any(|cond| is_cond_beyond(cond))
}

/// The first check that fails of conditions beside which nothing is checked.
pub fn conds_fault<'a>(conds: &'a [Cond], columns: &[Column]) -> Option<Fault<'a>>
    ensures { (done : Effect) → Checks result (check_conds columns.now conds.now done) done }
{
    if let Some(name) = unknown_column(conds, columns) {
        return Some(Fault::UnknownName(name.as_str()));
    }
    if !fit_columns(conds, columns) {
        return Some(Fault::WrongValues);
    }
    if has_beyond(conds) {
        return Some(Fault::OutOfRange);
    }
    None
}
