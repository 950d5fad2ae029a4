//! DROP TABLE and DROP INDEX.

ghost use Rattle.st_parse.specs.Dropping.{drop_of};
ghost use Rattle.st_parse.specs.Reading.{StatementGives};

use crate::lexemes::{Keyword, Lexeme};
use crate::parsing::StatementFault;
use crate::statements::Statement;

/// What follows DROP.
pub(crate) fn drop_statement(lexemes: &[Lexeme]) -> Result<Statement, StatementFault>
    ensures { StatementGives result (drop_of lexemes.now) }
{
    match lexemes {
        [Lexeme::Word(Keyword::Table), Lexeme::Name(name)] => Ok(Statement::DropTable {
            name: name.clone()?,
        }),
        [Lexeme::Word(Keyword::Index), Lexeme::Name(name)] => Ok(Statement::DropIndex {
            name: name.clone()?,
        }),
        _ => Err(StatementFault::Syntax),
    }
}
