//! Conditions on the values of columns.

ghost use Rattle.std.specs.Prelude.{◌≡◌, ◌≤◌, length, IfOk};
ghost use Rattle.st_parse.specs.Conditions.{comparison_of, compared_at, comparison_at, between_at, range_at, one_of_at, cond_at};
ghost use Rattle.st_parse.specs.Reading.{ReadGives};

use crate::lexemes::{Keyword, Lexeme, Symbol};
use crate::listing::{Element, read_enclosed};
use crate::parsing::StatementFault;
use crate::statements::{Compare, Cond, Operand, Operands};
use crate::values::read_operand;
use ct_base::Name;
use std::alloc::Global;

/// The comparison that a sign stands for.
pub fn comparison_of(sign: Symbol) -> Option<Compare>
    ensures { result ≡ comparison_of sign }
{
    match sign {
        Symbol::Equal => Some(Compare::Equal),
        Symbol::Less => Some(Compare::Less),
        Symbol::AtMost => Some(Compare::AtMost),
        Symbol::Greater => Some(Compare::Greater),
        Symbol::AtLeast => Some(Compare::AtLeast),
        _ => None,
    }
}

/// A comparison, by what follows its sign.
fn read_compared<'a>(
    column: &Name,
    op: Compare,
    lexemes: &'a [Lexeme],
) -> Result<(Cond, &'a [Lexeme]), StatementFault>
    ensures gives { ReadGives (λ x. (x.0, x.1.now)) result (compared_at column.now op lexemes.now) }
    ensures rest { IfOk result (λ x. length x.1.now ≤ length lexemes.now) }
{
    let (value, rest) = read_operand(lexemes)?;
    let column = column.clone()?;
    Ok((Cond::Compare { column, op, value }, rest))
}

/// A comparison, by its sign and what follows that.
fn read_comparison<'a>(
    column: &Name,
    sign: Symbol,
    lexemes: &'a [Lexeme],
) -> Result<(Cond, &'a [Lexeme]), StatementFault>
    ensures gives { ReadGives (λ x. (x.0, x.1.now)) result (comparison_at column.now sign lexemes.now) }
    ensures rest { IfOk result (λ x. length x.1.now ≤ length lexemes.now) }
{
    match comparison_of(sign) {
        Some(op) => read_compared(column, op, lexemes),
        None => Err(StatementFault::Syntax),
    }
}

/// BETWEEN, by its low value and what follows that.
fn read_between<'a>(
    column: &Name,
    low: Operand,
    lexemes: &'a [Lexeme],
) -> Result<(Cond, &'a [Lexeme]), StatementFault>
    ensures gives { ReadGives (λ x. (x.0, x.1.now)) result (between_at column.now (low, lexemes.now)) }
    ensures rest { IfOk result (λ x. length x.1.now ≤ length lexemes.now) }
{
    match lexemes {
        [Lexeme::Word(Keyword::And), rest @ ..] => {
            let (high, rest) = read_operand(rest)?;
            let column = column.clone()?;
            Ok((Cond::Between { column, low, high }, rest))
        }
        _ => Err(StatementFault::Syntax),
    }
}

/// BETWEEN, by what follows it.
fn read_range<'a>(
    column: &Name,
    lexemes: &'a [Lexeme],
) -> Result<(Cond, &'a [Lexeme]), StatementFault>
    ensures gives { ReadGives (λ x. (x.0, x.1.now)) result (range_at column.now lexemes.now) }
    ensures rest { IfOk result (λ x. length x.1.now ≤ length lexemes.now) }
{
    let (low, rest) = read_operand(lexemes)?;
    read_between(column, low, rest)
}

/// IN, by what follows it.
fn read_one_of<'a>(
    alloc: Global,
    column: &Name,
    lexemes: &'a [Lexeme],
) -> Result<(Cond, &'a [Lexeme]), StatementFault>
    ensures gives { ReadGives (λ x. (x.0, x.1.now)) result (one_of_at column.now lexemes.now) }
    ensures rest { IfOk result (λ x. length x.1.now ≤ length lexemes.now) }
{
    let (values, rest) = read_enclosed(alloc, lexemes)?;
    let column = column.clone()?;
    Ok((
        Cond::OneOf {
            column,
            values: Operands::of(values),
        },
        rest,
    ))
}

impl Element for Cond {
    ghost item_at = { cond_at };

    fn read(alloc: Global, lexemes: &[Lexeme]) -> Result<(Cond, &[Lexeme]), StatementFault> {
        match lexemes {
            [Lexeme::Name(column), Lexeme::Sign(sign), rest @ ..] => {
                read_comparison(column, *sign, rest)
            }
            [
                Lexeme::Name(column),
                Lexeme::Word(Keyword::Between),
                rest @ ..,
            ] => read_range(column, rest),
            [Lexeme::Name(column), Lexeme::Word(Keyword::In), rest @ ..] => {
                read_one_of(alloc, column, rest)
            }
            _ => Err(StatementFault::Syntax),
        }
    }
}
