//! Whether a condition holds of a value.

ghost use Rattle.std.specs.Prelude.{◌≡◌};
ghost use Rattle.std.specs.List.{list_any};
ghost use Rattle.st_parse.specs.declared.statements.Compare.TheVariants as compare;
ghost use Rattle.db_cond.specs.Conditions.{allows as order_allows, compares as comparison_holds, holds as condition_holds, order_of as value_order};

use ct_base::Value;
use st_parse::{Compare, Cond, Operand, Whole};
use std::cmp::Ordering;

/// The order of a value and an operand: numbers by their size, texts by their bytes. None where their types differ or the number
/// is outside 64 bits.
fn order_of(value: &Value, operand: &Operand) -> Option<Ordering>
    ensures { result ≡ value_order value.now operand.now }
{
    match (value, operand) {
        (Value::Number(number), Operand::Number(Whole::Fits(other))) => Some(number.cmp(other)),
        (Value::Text(text), Operand::Text(other)) => Some(text.as_str().cmp(other.as_str())),
        _ => None,
    }
}

/// Whether the comparison holds where the value and the operand are in this order.
fn allows(op: Compare, order: Ordering) -> bool
    ensures { result ≡ order_allows op order }
{
    match op {
        Compare::Equal => order.is_eq(),
        Compare::Less => order.is_lt(),
        Compare::AtMost => order.is_le(),
        Compare::Greater => order.is_gt(),
        Compare::AtLeast => order.is_ge(),
    }
}

/// Whether the comparison holds of the value.
fn compares(op: Compare, value: &Value, operand: &Operand) -> bool
    ensures { result ≡ comparison_holds op value.now operand.now }
{
    match order_of(value, operand) {
        Some(order) => allows(op, order),
        None => false,
    }
}

/// Whether the value is one of the operands.
fn is_one_of(value: &Value, operands: &[Operand]) -> bool
    ensures { result ≡ list_any (comparison_holds compare.Equal value.now) operands.now }
{
    operands
        .iter()
        .any(|operand| compares(Compare::Equal, value, operand))
}

/// Whether the condition holds of the value. None holds where the types differ or a number is outside 64 bits. Its cost is the
/// length of the value and of the operands.
pub fn holds(cond: &Cond, value: &Value) -> bool
    ensures { result ≡ condition_holds cond.now value.now }
{
    match cond {
        Cond::Compare {
            op,
            value: operand,
            ..
        } => compares(*op, value, operand),
        Cond::Between { low, high, .. } => {
            compares(Compare::AtLeast, value, low) && compares(Compare::AtMost, value, high)
        }
        Cond::OneOf { values, .. } => is_one_of(value, values.as_slice()),
    }
}
