//! DELETE.

ghost use Rattle.st_parse.specs.Deleting.{delete_from_of, delete_of};
ghost use Rattle.st_parse.specs.Reading.{StatementGives};

use crate::lexemes::{Keyword, Lexeme};
use crate::listing::read_where_last;
use crate::parsing::StatementFault;
use crate::statements::{Conds, Statement};
use std::alloc::Global;

/// What follows DELETE and FROM.
fn delete_from(alloc: Global, lexemes: &[Lexeme]) -> Result<Statement, StatementFault>
    ensures { StatementGives result (delete_from_of lexemes.now) }
{
    match lexemes {
        [Lexeme::Name(table), rest @ ..] => {
            let conds = read_where_last(alloc, rest)?;
            Ok(Statement::Delete {
                table: table.clone()?,
                conds: Conds::of(conds),
            })
        }
        _ => Err(StatementFault::Syntax),
    }
}

/// What follows DELETE.
pub(crate) fn delete(alloc: Global, lexemes: &[Lexeme]) -> Result<Statement, StatementFault>
    ensures { StatementGives result (delete_of lexemes.now) }
{
    match lexemes {
        [Lexeme::Word(Keyword::From), rest @ ..] => delete_from(alloc, rest),
        _ => delete_from(alloc, lexemes),
    }
}
