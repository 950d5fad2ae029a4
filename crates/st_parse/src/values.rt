//! Values: texts, and numbers with a sign.

ghost use Rattle.std.specs.Prelude.{◌≤◌, length, IfOk};
ghost use Rattle.st_parse.specs.Reading.{ReadGives};
ghost use Rattle.st_parse.specs.Values.{signed_at, operand_at};

use crate::lexemes::{Lexeme, Symbol};
use crate::listing::Element;
use crate::numbers::{negated, number};
use crate::parsing::StatementFault;
use crate::statements::{Operand, Whole};
use std::alloc::Global;

/// The number at the beginning, with its sign if it has one, and what follows it.
pub(crate) fn read_signed(lexemes: &[Lexeme]) -> Result<(Whole, &[Lexeme]), StatementFault>
    ensures gives { ReadGives (λ x. (x.0, x.1.now)) result (signed_at lexemes.now) }
    ensures rest { IfOk result (λ x. length x.1.now ≤ length lexemes.now) }
{
    match lexemes {
        [Lexeme::Number(digits), rest @ ..] => Ok((number(digits), rest)),
        [
            Lexeme::Sign(Symbol::Minus),
            Lexeme::Number(digits),
            rest @ ..,
        ] => Ok((negated(digits), rest)),
        _ => Err(StatementFault::Syntax),
    }
}

/// The value at the beginning, and what follows it.
pub(crate) fn read_operand(lexemes: &[Lexeme]) -> Result<(Operand, &[Lexeme]), StatementFault>
    ensures gives { ReadGives (λ x. (x.0, x.1.now)) result (operand_at lexemes.now) }
    ensures rest { IfOk result (λ x. length x.1.now ≤ length lexemes.now) }
{
    match lexemes {
        [Lexeme::Text(text), rest @ ..] => Ok((Operand::Text(text.clone()?), rest)),
        _ => {
            let (n, rest) = read_signed(lexemes)?;
            Ok((Operand::Number(n), rest))
        }
    }
}

impl Element for Operand {
    ghost item_at = { operand_at };

    fn read(_alloc: Global, lexemes: &[Lexeme]) -> Result<(Operand, &[Lexeme]), StatementFault> {
        read_operand(lexemes)
    }
}
