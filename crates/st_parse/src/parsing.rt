//! From a text to the statement that it is.

ghost use Rattle.std.specs.Prelude.{◌≡◌, ◌≢◌, List, [], IfOk, IfSome, IfNone, IsErrOf, Some};
ghost use Rattle.std.specs.Str.{chars};
ghost use Rattle.st_parse.specs.Lexemes.{lexemes};
ghost use Rattle.st_parse.specs.Grammar.{IsStatement, IsNoStatement, statement_of, read, ParseGives};
ghost use Rattle.st_parse.specs.Reading.{StatementGives, statement_fault};
ghost use Rattle.st_parse.specs.declared.lexemes.Lexeme.{Lexeme};
ghost use Rattle.st_parse.specs.declared.statements.Statement.{Statement};
ghost use Rattle.st_parse.specs.declared.parsing.StatementFault.TheVariants.{Memory as NoMemory};

use crate::calling::exec;
use crate::creating::create;
use crate::deleting::delete;
use crate::dropping::drop_statement;
use crate::inserting::insert;
use crate::lexemes::{Keyword, Lexeme};
use crate::lexing::{LexFault, lex};
use crate::selecting::select;
use crate::statements::Statement;
use crate::updating::update;
use ct_base::Memory;
use std::alloc::{AllocError, AllocFailed, Global};
use thiserror::Error;

/// Why a text gave no statement.
#[derive(Clone, Copy, Debug, PartialEq, Eq, Error)]
pub enum StatementFault {
    /// The text has a lexeme, or something that is none, and is no statement.
    #[error("not a statement")]
    Syntax,
    #[error("out of memory")]
    Memory,
}

impl From<Memory> for StatementFault {
    ghost from_gives = { λ _ fault. fault ≡ NoMemory };

    fn from(_: Memory) -> StatementFault {
        StatementFault::Memory
    }
}

impl From<AllocError> for StatementFault {
    ghost from_gives = { λ _ fault. fault ≡ NoMemory };

    fn from(_: AllocError) -> StatementFault {
        StatementFault::Memory
    }
}

impl<T: Drop> From<AllocFailed<T>> for StatementFault {
    ghost from_gives = { λ _ fault. fault ≡ NoMemory };

    fn from(_: AllocFailed<T>) -> StatementFault {
        StatementFault::Memory
    }
}

impl From<LexFault> for StatementFault {
    ghost from_gives = { λ lexical fault. fault ≡ statement_fault lexical };

    fn from(fault: LexFault) -> StatementFault {
        match fault {
            LexFault::NoLexeme => StatementFault::Syntax,
            LexFault::Memory => StatementFault::Memory,
        }
    }
}

/// The statement that the lexemes are.
fn statement(alloc: Global, lexemes: &[Lexeme]) -> Result<Statement, StatementFault>
    ensures { StatementGives result (statement_of lexemes.now) }
{
    match lexemes {
        [Lexeme::Word(Keyword::Create), rest @ ..] => create(alloc, rest),
        [Lexeme::Word(Keyword::Drop), rest @ ..] => drop_statement(rest),
        [Lexeme::Word(Keyword::Insert), rest @ ..] => insert(alloc, rest),
        [Lexeme::Word(Keyword::Update), rest @ ..] => update(alloc, rest),
        [Lexeme::Word(Keyword::Delete), rest @ ..] => delete(alloc, rest),
        [Lexeme::Word(Keyword::Select), rest @ ..] => select(alloc, rest),
        [Lexeme::Word(Keyword::Exec | Keyword::Execute), rest @ ..] => exec(alloc, rest),
        [Lexeme::Word(Keyword::Commit)] => Ok(Statement::Commit),
        _ => Err(StatementFault::Syntax),
    }
}

/// Reads a statement; there is none where the text is only white space and comments. Its cost is the length of the text.
pub fn parse(alloc: Global, text: &str) -> Result<Option<Statement>, StatementFault>
    ensures reads { ParseGives result (read (chars text.now)) }

    // the same in the grammar's own words
    ensures blank { IfOk result (λ found. IfNone found (lexemes (chars text.now) ≡ Some [])) }
    ensures statement { IfOk result (λ found. IfSome found (λ s. (ls : List Lexeme) × (lexemes (chars text.now) ≡ Some ls) × IsStatement ls s)) }
    ensures syntax { IsErrOf result StatementFault.Syntax → (ls : List Lexeme) → lexemes (chars text.now) ≡ Some ls → (ls ≢ []) × IsNoStatement ls }
{
    let lexemes = lex(alloc, text)?;
    if lexemes.is_empty() {
        return Ok(None);
    }
    Ok(Some(statement(alloc, lexemes.as_slice())?))
}
