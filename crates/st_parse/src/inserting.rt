//! INSERT.

ghost use Rattle.std.specs.Prelude.{Some};
ghost use Rattle.st_parse.specs.Inserting.{name_at, values_of, insert_named_of, insert_columns_of, insert_of};
ghost use Rattle.st_parse.specs.Reading.{ReadGives, StatementGives};
ghost use Rattle.st_parse.specs.declared.statements.Statement.TheVariants.{Insert};

use crate::lexemes::{Keyword, Lexeme};
use crate::listing::{Element, read_enclosed, read_enclosed_last};
use crate::parsing::StatementFault;
use crate::statements::{ColumnNames, Operand, Operands, Statement};
use ct_base::Name;
use std::alloc::Global;

impl Element for Name {
    ghost item_at = { name_at };

    fn read(_alloc: Global, lexemes: &[Lexeme]) -> Result<(Name, &[Lexeme]), StatementFault> {
        match lexemes {
            [Lexeme::Name(name), rest @ ..] => Ok((name.clone()?, rest)),
            _ => Err(StatementFault::Syntax),
        }
    }
}

/// VALUES and the values, where nothing follows.
fn read_values(alloc: Global, lexemes: &[Lexeme]) -> Result<Vec<Operand>, StatementFault>
    ensures { ReadGives (λ v. v.items) result (values_of lexemes.now) }
{
    match lexemes {
        [Lexeme::Word(Keyword::Values), rest @ ..] => read_enclosed_last(alloc, rest),
        _ => Err(StatementFault::Syntax),
    }
}

/// The statement that puts these values into the columns.
fn insert_values(
    table: &Name,
    columns: Option<ColumnNames>,
    values: Vec<Operand>,
) -> Result<Statement, StatementFault>
    ensures { StatementGives result (Some (Insert table.now columns values.items)) }
{
    Ok(Statement::Insert {
        table: table.clone()?,
        columns,
        values: Operands::of(values),
    })
}

/// What follows the table, where it is the names of columns.
fn named_columns(
    alloc: Global,
    table: &Name,
    lexemes: &[Lexeme],
) -> Result<Statement, StatementFault>
    ensures { StatementGives result (insert_named_of table.now lexemes.now) }
{
    let (names, rest) = read_enclosed(alloc, lexemes)?;
    let values = read_values(alloc, rest)?;
    insert_values(table, Some(ColumnNames::of(names)), values)
}

/// What follows the table.
fn columns(alloc: Global, table: &Name, lexemes: &[Lexeme]) -> Result<Statement, StatementFault>
    ensures { StatementGives result (insert_columns_of table.now lexemes.now) }
{
    match lexemes {
        [Lexeme::Word(Keyword::Values), ..] => {
            let values = read_values(alloc, lexemes)?;
            insert_values(table, None, values)
        }
        _ => named_columns(alloc, table, lexemes),
    }
}

/// What follows INSERT.
pub(crate) fn insert(alloc: Global, lexemes: &[Lexeme]) -> Result<Statement, StatementFault>
    ensures { StatementGives result (insert_of lexemes.now) }
{
    match lexemes {
        [Lexeme::Word(Keyword::Into), Lexeme::Name(table), rest @ ..] => {
            columns(alloc, table, rest)
        }
        _ => Err(StatementFault::Syntax),
    }
}
