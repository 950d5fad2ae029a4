//! What the values of statements keep to. Each function here only states a law of values, which is known of a value once it is read.

ghost use Rattle.std.specs.List.{All};
ghost use Rattle.db_change.specs.Inserting.{IsNumberKept, IsTextKept};
ghost use Rattle.db_change.specs.Updating.{IsKeptAssign};

use st_parse::{Assign, Operand, Whole};

/// A number has 64 bits, and a text is UTF-8.
fn keep_value(value: &Operand)
    ensures number { IsNumberKept value.now }
    ensures text { IsTextKept value.now }
{
    match value {
        Operand::Text(text) => {
            let _utf8 = text.as_str();
        }
        Operand::Number(Whole::Fits(number)) => {
            let _number = *number;
        }
        Operand::Number(Whole::Beyond) => {}
    }
}

/// So it is with each of these values. Its cost is their number.
pub(crate) fn keep_values(values: &[Operand])
    ensures numbers { All IsNumberKept values.now }
    ensures texts { All IsTextKept values.now }
{
    for value in values {
        keep_value(value);
    }
}

/// So it is with each value that is set. Its cost is their number.
pub(crate) fn keep_assigns(assigns: &[Assign])
    ensures { All IsKeptAssign assigns.now }
{
    for assign in assigns {
        keep_value(&assign.value);
    }
}
