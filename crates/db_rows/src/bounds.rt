//! Between which keys the rows lie that meet conditions.

ghost use Rattle.std.specs.Prelude.{◌≡◌, ◌≤ℤ◌, ◌⊎◌, ◌↔◌, ℤ, true};
ghost use Rattle.std.specs.List.{list_any};
ghost use Rattle.ct_base.specs.declared.lists.Value.TheVariants.{Number as NumberValue};
ghost use Rattle.ct_entry.specs.Keys.{IsRow, same_list};
ghost use Rattle.ct_entry.specs.Listings.{number_of};
ghost use Rattle.ct_entry.specs.laws.Rows.{IsPlace};
ghost use Rattle.st_parse.specs.declared.statements.Compare.TheVariants as compare;
ghost use Rattle.db_cond.specs.Conditions.{compares};
ghost use Rattle.db_rows.specs.Sources.{is_key_source, source_of as source_of_column};
ghost use Rattle.db_rows.specs.Checking.{cond_column as column_of_cond};
ghost use Rattle.db_rows.specs.Bounds.{AreBoundsOf, AreTight, AreTightNumbers, BoundRows, BoundKeys, BoundNumbers, HoldsWithin, IsWithinBounds};
ghost use Rattle.db_rows.specs.Walking.{IsStart};

use crate::checking::cond_column;
use crate::sources::{Source, source_of};
use ct_base::{Name, RowKey};
use st_parse::{Compare, Cond, Operand, Whole};
use tb_table::Column;

/// Row keys, or other numbers of 64 bits, from the one to the other, both included; none where the first is the greater.
#[derive(Clone, Copy)]
pub struct KeyBounds {
    pub least: RowKey,
    pub greatest: RowKey,
}

impl KeyBounds {
    const ALL: KeyBounds = KeyBounds {
        least: RowKey(i64::MIN),
        greatest: RowKey(i64::MAX),
    };

    const NONE: KeyBounds = KeyBounds {
        least: RowKey(i64::MAX),
        greatest: RowKey(i64::MIN),
    };
}

/// The keys of which a comparison with a number holds.
fn number_bounds(op: Compare, number: i64) -> KeyBounds
    ensures { AreBoundsOf op (Operand.Number (Whole.Fits number)) result }
{
    match op {
        Compare::Equal => KeyBounds {
            least: RowKey(number),
            greatest: RowKey(number),
        },
        Compare::Less if number == i64::MIN => KeyBounds::NONE,
        Compare::Less => KeyBounds {
            least: RowKey(i64::MIN),
            greatest: RowKey(number - 1),
        },
        Compare::AtMost => KeyBounds {
            least: RowKey(i64::MIN),
            greatest: RowKey(number),
        },
        Compare::Greater if number == i64::MAX => KeyBounds::NONE,
        Compare::Greater => KeyBounds {
            least: RowKey(number + 1),
            greatest: RowKey(i64::MAX),
        },
        Compare::AtLeast => KeyBounds {
            least: RowKey(number),
            greatest: RowKey(i64::MAX),
        },
    }
}

/// The keys of which a comparison with a number of a statement holds; none where it is outside 64 bits.
fn whole_bounds(op: Compare, number: Whole) -> KeyBounds
    ensures { AreBoundsOf op (Operand.Number number) result }
{
    match number {
        Whole::Fits(number) => number_bounds(op, number),
        Whole::Beyond => KeyBounds::NONE,
    }
}

/// The keys of which a comparison holds; none where it is with a text.
fn compare_bounds(op: Compare, operand: &Operand) -> KeyBounds
    ensures { AreBoundsOf op operand.now result }
{
    match operand {
        Operand::Number(number) => whole_bounds(op, *number),
        Operand::Text(_) => KeyBounds::NONE,
    }
}

fn greater(a: RowKey, b: RowKey) -> RowKey
    ensures first { a.0 ≤ℤ result.0 }
    ensures second { b.0 ≤ℤ result.0 }
    ensures either { (result ≡ a) ⊎ (result ≡ b) }
{
    if a.0 < b.0 { b } else { a }
}

fn lesser(a: RowKey, b: RowKey) -> RowKey
    ensures first { result.0 ≤ℤ a.0 }
    ensures second { result.0 ≤ℤ b.0 }
    ensures either { (result ≡ a) ⊎ (result ≡ b) }
{
    if a.0 < b.0 { a } else { b }
}

/// The keys that lie within both.
fn overlap(a: KeyBounds, b: KeyBounds) -> KeyBounds
    ensures { (r : ℤ) → IsWithinBounds result r ↔ (IsWithinBounds a r × IsWithinBounds b r) }
{
    let least = greater(a.least, b.least);
    let greatest = lesser(a.greatest, b.greatest);
    KeyBounds { least, greatest }
}

/// From the least of both to the greatest.
fn span(a: KeyBounds, b: KeyBounds) -> KeyBounds
    ensures { (r : ℤ) → IsWithinBounds a r ⊎ IsWithinBounds b r → IsWithinBounds result r }
{
    let least = lesser(a.least, b.least);
    let greatest = greater(a.greatest, b.greatest);
    KeyBounds { least, greatest }
}

/// From the least of the numbers to the greatest.
fn list_bounds(operands: &[Operand]) -> KeyBounds
    ensures { (r : ℤ) → IsRow r → list_any (compares compare.Equal (NumberValue r)) operands.now ≡ true → IsWithinBounds result r }
{
    let mut bounds = KeyBounds::NONE;
    for operand in operands {
        bounds = span(bounds, compare_bounds(Compare::Equal, operand));
    }
    bounds
}

/// Bounds of the keys of which a condition holds.
fn cond_bounds(cond: &Cond) -> KeyBounds
    ensures bound { BoundKeys cond.now result }
    ensures tight { HoldsWithin cond.now result }
{
    match cond {
        Cond::Compare { op, value, .. } => compare_bounds(*op, value),
        Cond::Between { low, high, .. } => overlap(
            compare_bounds(Compare::AtLeast, low),
            compare_bounds(Compare::AtMost, high),
        ),
        Cond::OneOf { values, .. } => list_bounds(values.as_slice()),
    }
}

/// Whether the condition is on the key.
fn is_on_key(cond: &Cond, columns: &[Column]) -> bool
    ensures { result ≡ is_key_source (source_of_column (column_of_cond cond.now) columns.now) }
{
    matches!(source_of(cond_column(cond), columns), Source::Key)
}

/// Bounds of the keys of the rows that meet all conditions: those of the conditions on the key, all together. Of a list they are the
/// least and the greatest of its numbers.
pub(crate) fn key_bounds(conds: &[Cond], columns: &[Column]) -> KeyBounds
    ensures bound { BoundRows columns.now conds.now result }
    ensures tight { AreTight columns.now conds.now result }
{
    let mut bounds = KeyBounds::ALL;
    for cond in conds {
        if is_on_key(cond, columns) {
            bounds = overlap(bounds, cond_bounds(cond));
        }
    }
    bounds
}

/// Whether the condition is on the column with this name.
pub fn is_on(cond: &Cond, name: &Name) -> bool
    ensures { result ≡ same_list (column_of_cond cond.now) name.now }
{
    cond_column(cond).as_str() == name.as_str()
}

/// Bounds of the numbers that a column with this name has in the rows that meet all conditions: those of the conditions on it, all
/// together, and all numbers where none is on it. Its cost is the number of conditions and of their operands.
pub fn column_bounds(conds: &[Cond], name: &Name) -> KeyBounds
    ensures bound { BoundNumbers name.now conds.now result }
    ensures tight { AreTightNumbers name.now conds.now result }
{
    let mut bounds = KeyBounds::ALL;
    for cond in conds {
        if is_on(cond, name) {
            bounds = overlap(bounds, cond_bounds(cond));
        }
    }
    bounds
}

/// The key after which those within the bounds begin; None where they begin with the least of all.
pub(crate) fn start(bounds: KeyBounds) -> Option<RowKey>
    ensures start { IsStart bounds (number_of result) }
    ensures place { IsPlace (number_of result) }
{
    if bounds.least.0 == i64::MIN {
        None
    } else {
        Some(RowKey(bounds.least.0 - 1))
    }
}
