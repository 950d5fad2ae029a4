//! What conditions say of the bytes of a column's value.

ghost use Rattle.std.specs.Prelude.{◌≡◌, ◌≤◌, length, Some, IfOk};
ghost use Rattle.std.specs.Option.{option_map};
ghost use Rattle.ct_bytes.specs.RowKeys.{row_bytes};
ghost use Rattle.ct_entry.specs.Keys.{counted_bytes};
ghost use Rattle.st_parse.specs.declared.statements.Compare.TheVariants as compare;
ghost use Rattle.cat_index.specs.Filings.{sub_text_limit};
ghost use Rattle.db_range.specs.Values.{IsRangeOfSort, IsValueRange, asked_text as text_asked, bounded_sort as sort_bounded, is_any_on as any_is_on, number_range as range_of_numbers, text_of_cond as cond_text, text_on as text_on_column, text_range as range_of_text, wanted_text as text_wanted};

use crate::places::Range;
use ct_base::{Bytes, Listed, Memory, Name, RowKey, Text};
use ct_bytes::row_key_bytes;
use db_rows::{KeyBounds, column_bounds, is_on, sort_of};
use st_parse::{Compare, Cond, Operand};
use std::alloc::Global;
use tb_table::{Column, Sort};

/// How many bytes a text in a column of a sub-index has at most.
const SUB_TEXT_LIMIT: usize = 100;

/// Whether one of the conditions is on the column with this name.
fn is_any_on(conds: &[Cond], name: &Name) -> bool
    ensures { result ≡ any_is_on name.now conds.now }
{
    conds.iter().any(|cond| is_on(cond, name))
}

/// The sort of the column with this name, if a condition is on it.
fn bounded_sort(conds: &[Cond], name: &Name, columns: &[Column]) -> Option<Sort>
    ensures { result ≡ sort_bounded columns.now conds.now name.now }
{
    if is_any_on(conds, name) {
        sort_of(name, columns)
    } else {
        None
    }
}

/// The text that an operand is.
fn operand_text(operand: &Operand) -> Option<&Text>
    ensures { option_map (λ t. t.now) result ≡ text_asked compare.Equal operand.now }
{
    match operand {
        Operand::Text(text) => Some(text),
        Operand::Number(_) => None,
    }
}

/// The text that a value has to be, so that it compares so with the operand.
fn asked_text(op: Compare, operand: &Operand) -> Option<&Text>
    ensures { option_map (λ t. t.now) result ≡ text_asked op operand.now }
{
    match op {
        Compare::Equal => operand_text(operand),
        Compare::Less | Compare::AtMost | Compare::Greater | Compare::AtLeast => None,
    }
}

/// The text that the value of its column has to be, so that the condition holds.
fn text_of_cond(cond: &Cond) -> Option<&Text>
    ensures { option_map (λ t. t.now) result ≡ cond_text cond.now }
{
    match cond {
        Cond::Compare { op, value, .. } => asked_text(*op, value),
        Cond::Between { .. } => None,
        Cond::OneOf { .. } => None,
    }
}

/// The same, if the condition is on the column with this name.
fn text_on<'a>(cond: &'a Cond, name: &Name) -> Option<&'a Text>
    ensures { option_map (λ t. t.now) result ≡ text_on_column name.now cond.now }
{
    if is_on(cond, name) {
        text_of_cond(cond)
    } else {
        None
    }
}

/// The text that the first such condition asks for.
fn wanted_text<'a>(conds: &'a [Cond], name: &Name) -> Option<&'a Text>
    ensures { option_map (λ t. t.now) result ≡ text_wanted conds.now name.now }
{
    let mut rest = conds;
    while let [cond, later @ ..] = rest {
        if let Some(text) = text_on(cond, name) {
            return Some(text);
        }
        rest = later;
    }
    None
}

fn key_bytes(alloc: Global, key: RowKey) -> Result<Bytes, Memory>
    ensures { IfOk result (λ bytes. bytes ≡ row_bytes key.0) }
{
    let mut bytes = Vec::new(alloc);
    bytes.extend_from_slice(&row_key_bytes(key))?;
    Ok(Listed::of(bytes))
}

/// From the bytes of the least number to those of the greatest.
fn number_range(alloc: Global, bounds: KeyBounds) -> Result<Option<Range>, Memory>
    ensures { IfOk result (λ range. range ≡ Some (range_of_numbers bounds)) }
{
    let low = key_bytes(alloc, bounds.least)?;
    let high = key_bytes(alloc, bounds.greatest)?;
    Ok(Some(Range { low, high }))
}

/// The text after its length in one byte.
fn text_bytes(alloc: Global, text: &[u8]) -> Result<Bytes, Memory>
    requires { length text.now ≤ sub_text_limit }
    ensures { IfOk result (λ bytes. bytes ≡ counted_bytes text.now) }
{
    let mut bytes = Vec::new(alloc);
    bytes.push(text.len() as u8)?;
    bytes.extend_from_slice(text)?;
    Ok(Listed::of(bytes))
}

/// The bytes of a text; None of one of over 100 bytes, which no column of a sub-index has.
fn short_range(alloc: Global, text: &[u8]) -> Result<Option<Range>, Memory>
    ensures { IfOk result (λ range. range ≡ range_of_text (Some text.now)) }
{
    if text.len() > SUB_TEXT_LIMIT {
        return Ok(None);
    }
    let low = text_bytes(alloc, text)?;
    let high = text_bytes(alloc, text)?;
    Ok(Some(Range { low, high }))
}

/// The same of a text that may be missing.
fn text_range(alloc: Global, text: Option<&Text>) -> Result<Option<Range>, Memory>
    ensures { IfOk result (λ range. range ≡ range_of_text (option_map (λ t. t.now) text.entry)) }
{
    match text {
        Some(text) => short_range(alloc, text.as_str().as_bytes()),
        None => Ok(None),
    }
}

/// The range of the bytes of the value that a column of this sort with this name has in the rows that meet all conditions.
fn range_of_sort(
    alloc: Global,
    conds: &[Cond],
    name: &Name,
    sort: Option<Sort>,
) -> Result<Option<Range>, Memory>
    ensures { IfOk result (IsRangeOfSort sort conds.now name.now) }
{
    match sort {
        Some(Sort::Number) => number_range(alloc, column_bounds(conds, name)),
        Some(Sort::Varchar2(_)) => text_range(alloc, wanted_text(conds, name)),
        Some(Sort::Clob) | None => Ok(None),
    }
}

/// The range of the bytes of the value that a column with this name has in the rows that meet all conditions; None where nothing is
/// known of them.
///
/// Its cost is the number of conditions, of their operands, and of columns.
pub(crate) fn value_range(
    alloc: Global,
    conds: &[Cond],
    name: &Name,
    columns: &[Column],
) -> Result<Option<Range>, Memory>
    ensures { IfOk result (IsValueRange columns.now conds.now name.now) }
{
    let sort = bounded_sort(conds, name, columns);
    range_of_sort(alloc, conds, name, sort)
}
