//! EXEC.

ghost use Rattle.st_parse.specs.Calling.{arg_at, args_of, call_of, exec_of};
ghost use Rattle.st_parse.specs.Procedures.{procedure_named};
ghost use Rattle.st_parse.specs.Reading.{ReadGives, StatementGives};

use crate::lexemes::{Keyword, Lexeme, Symbol};
use crate::listing::{Element, read_enclosed_last};
use crate::parsing::StatementFault;
use crate::procedures::Procedure;
use crate::statements::{Arg, Args, Statement};
use crate::values::read_signed;
use ct_base::Name;
use std::alloc::Global;

impl Element for Arg {
    ghost item_at = { arg_at };

    fn read(_alloc: Global, lexemes: &[Lexeme]) -> Result<(Arg, &[Lexeme]), StatementFault> {
        match lexemes {
            [Lexeme::Text(text), rest @ ..] => Ok((Arg::Text(text.clone()?), rest)),
            [Lexeme::Word(Keyword::True), rest @ ..] => Ok((Arg::Flag(true), rest)),
            [Lexeme::Word(Keyword::False), rest @ ..] => Ok((Arg::Flag(false), rest)),
            _ => {
                let (n, rest) = read_signed(lexemes)?;
                Ok((Arg::Number(n), rest))
            }
        }
    }
}

/// The arguments in their parentheses, where nothing follows.
fn args(alloc: Global, lexemes: &[Lexeme]) -> Result<Vec<Arg>, StatementFault>
    ensures { ReadGives (λ v. v.items) result (args_of lexemes.now) }
{
    match lexemes {
        [Lexeme::Sign(Symbol::Open), Lexeme::Sign(Symbol::Close)] => Ok(Vec::new(alloc)),
        _ => read_enclosed_last(alloc, lexemes),
    }
}

/// What follows EXEC or EXECUTE.
pub(crate) fn exec(alloc: Global, lexemes: &[Lexeme]) -> Result<Statement, StatementFault>
    ensures { StatementGives result (exec_of lexemes.now) }
{
    match lexemes {
        [
            Lexeme::Name(pack),
            Lexeme::Sign(Symbol::Dot),
            Lexeme::Name(procedure),
            rest @ ..,
        ] => {
            let args = args(alloc, rest)?;
            call_of(pack, procedure, args)
        }
        _ => Err(StatementFault::Syntax),
    }
}

/// The call of the procedure of these names, if there is one.
fn call_of(pack: &Name, procedure: &Name, args: Vec<Arg>) -> Result<Statement, StatementFault>
    ensures { StatementGives result (call_of (procedure_named pack.now procedure.now) args.items) }
{
    match Procedure::named(pack.as_str(), procedure.as_str()) {
        Some(procedure) => Ok(Statement::Exec {
            procedure,
            args: Args::of(args),
        }),
        None => Err(StatementFault::Syntax),
    }
}
