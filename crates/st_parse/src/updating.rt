//! UPDATE.

ghost use Rattle.st_parse.specs.Updating.{assign_at, update_where_of, update_of};
ghost use Rattle.st_parse.specs.Reading.{StatementGives};

use crate::lexemes::{Keyword, Lexeme, Symbol};
use crate::listing::{Element, Separator, read_list, read_where_last};
use crate::parsing::StatementFault;
use crate::statements::{Assign, Assigns, Conds, Statement};
use crate::values::read_operand;
use ct_base::Name;
use std::alloc::Global;

impl Element for Assign {
    ghost item_at = { assign_at };

    fn read(_alloc: Global, lexemes: &[Lexeme]) -> Result<(Assign, &[Lexeme]), StatementFault> {
        match lexemes {
            [Lexeme::Name(column), Lexeme::Sign(Symbol::Equal), rest @ ..] => {
                let (value, rest) = read_operand(rest)?;
                let column = column.clone()?;
                Ok((Assign { column, value }, rest))
            }
            _ => Err(StatementFault::Syntax),
        }
    }
}

/// What follows the values that are set.
fn update_where(
    alloc: Global,
    table: &Name,
    assigns: Vec<Assign>,
    lexemes: &[Lexeme],
) -> Result<Statement, StatementFault>
    ensures { StatementGives result (update_where_of table.now assigns.items lexemes.now) }
{
    let conds = read_where_last(alloc, lexemes)?;
    Ok(Statement::Update {
        table: table.clone()?,
        assigns: Assigns::of(assigns),
        conds: Conds::of(conds),
    })
}

/// What follows UPDATE.
pub(crate) fn update(alloc: Global, lexemes: &[Lexeme]) -> Result<Statement, StatementFault>
    ensures { StatementGives result (update_of lexemes.now) }
{
    match lexemes {
        [Lexeme::Name(table), Lexeme::Word(Keyword::Set), rest @ ..] => match read_list(
            alloc,
            Separator::Comma,
            rest,
        ) {
            Ok((assigns, rest)) => update_where(alloc, table, assigns, rest),
            Err(fault) => Err(fault),
        },
        _ => Err(StatementFault::Syntax),
    }
}
