//! CREATE TABLE and CREATE INDEX.

ghost use Rattle.std.specs.Prelude.{◌≡◌, ◌≤◌, length, IfOk};
ghost use Rattle.st_parse.specs.Creating.{sort_text_at, primary_key_at, column_at, plain_kind_at, kind_at, index_kind_at, enclosed_text_at, parameters_at, parallel_of, index_of, index_on_of, create_table_of, create_index_of, create_of};
ghost use Rattle.st_parse.specs.Reading.{ReadGives, StatementGives};

use crate::lexemes::{Keyword, Lexeme, Symbol};
use crate::listing::{Element, read_enclosed_last};
use crate::numbers::number;
use crate::parsing::StatementFault;
use crate::statements::{ColumnText, ColumnTexts, IndexKind, SortText, Statement, Whole};
use ct_base::{Name, Text};
use std::alloc::Global;

/// The type of a column at the beginning, and what follows it.
fn read_sort(lexemes: &[Lexeme]) -> Result<(SortText, &[Lexeme]), StatementFault>
    ensures gives { ReadGives (λ x. (x.0, x.1.now)) result (sort_text_at lexemes.now) }
    ensures rest { IfOk result (λ x. length x.1.now ≤ length lexemes.now) }
{
    match lexemes {
        [Lexeme::Word(Keyword::Number), rest @ ..] => Ok((SortText::Number, rest)),
        [
            Lexeme::Word(Keyword::Varchar2),
            Lexeme::Sign(Symbol::Open),
            Lexeme::Number(digits),
            Lexeme::Sign(Symbol::Close),
            rest @ ..,
        ] => Ok((SortText::Varchar2(number(digits)), rest)),
        [Lexeme::Word(Keyword::Clob), rest @ ..] => Ok((SortText::Clob, rest)),
        _ => Err(StatementFault::Syntax),
    }
}

/// Whether PRIMARY KEY stands at the beginning, and what follows it.
fn read_key(lexemes: &[Lexeme]) -> (bool, &[Lexeme])
    ensures key { (result.0, result.1.now) ≡ primary_key_at lexemes.now }
    ensures rest { length result.1.now ≤ length lexemes.now }
{
    match lexemes {
        [
            Lexeme::Word(Keyword::Primary),
            Lexeme::Word(Keyword::Key),
            rest @ ..,
        ] => (true, rest),
        _ => (false, lexemes),
    }
}

impl Element for ColumnText {
    ghost item_at = { column_at };

    fn read(_alloc: Global, lexemes: &[Lexeme]) -> Result<(ColumnText, &[Lexeme]), StatementFault> {
        match lexemes {
            [Lexeme::Name(name), rest @ ..] => {
                let (sort, rest) = read_sort(rest)?;
                let (primary, rest) = read_key(rest);
                let name = name.clone()?;
                Ok((
                    ColumnText {
                        name,
                        sort,
                        primary,
                    },
                    rest,
                ))
            }
            _ => Err(StatementFault::Syntax),
        }
    }
}

/// What follows CREATE TABLE.
fn create_table(alloc: Global, lexemes: &[Lexeme]) -> Result<Statement, StatementFault>
    ensures { StatementGives result (create_table_of lexemes.now) }
{
    match lexemes {
        [Lexeme::Name(name), rest @ ..] => {
            let columns = read_enclosed_last(alloc, rest)?;
            Ok(Statement::CreateTable {
                name: name.clone()?,
                columns: ColumnTexts::of(columns),
            })
        }
        _ => Err(StatementFault::Syntax),
    }
}

/// The type of an index without its owner, and what follows.
fn plain_kind(lexemes: &[Lexeme]) -> Result<(IndexKind, &[Lexeme]), StatementFault>
    ensures { ReadGives (λ found. (found.0, found.1.now)) result (plain_kind_at lexemes.now) }
{
    match lexemes {
        [Lexeme::Word(Keyword::Context), rest @ ..] => Ok((IndexKind::Context, rest)),
        [Lexeme::Word(Keyword::Ctxcat), rest @ ..] => Ok((IndexKind::Ctxcat, rest)),
        [Lexeme::Word(Keyword::Ctxrule), rest @ ..] => Ok((IndexKind::Ctxrule, rest)),
        _ => Err(StatementFault::Syntax),
    }
}

/// The type of an index, with its owner or without, and what follows.
fn named_kind(lexemes: &[Lexeme]) -> Result<(IndexKind, &[Lexeme]), StatementFault>
    ensures { ReadGives (λ found. (found.0, found.1.now)) result (kind_at lexemes.now) }
{
    match lexemes {
        [
            Lexeme::Word(Keyword::Ctxsys),
            Lexeme::Sign(Symbol::Dot),
            rest @ ..,
        ] => plain_kind(rest),
        _ => plain_kind(lexemes),
    }
}

/// The type of an index and the words before it, and what follows.
fn kind(lexemes: &[Lexeme]) -> Result<(IndexKind, &[Lexeme]), StatementFault>
    ensures { ReadGives (λ found. (found.0, found.1.now)) result (index_kind_at lexemes.now) }
{
    match lexemes {
        [
            Lexeme::Word(Keyword::Indextype),
            Lexeme::Word(Keyword::Is),
            rest @ ..,
        ] => named_kind(rest),
        _ => Err(StatementFault::Syntax),
    }
}

/// A text in parentheses, and what follows.
fn enclosed_text(lexemes: &[Lexeme]) -> Result<(Option<Text>, &[Lexeme]), StatementFault>
    ensures { ReadGives (λ p. (p.0, p.1.now)) result (enclosed_text_at lexemes.now) }
{
    match lexemes {
        [
            Lexeme::Sign(Symbol::Open),
            Lexeme::Text(text),
            Lexeme::Sign(Symbol::Close),
            rest @ ..,
        ] => {
            let text = text.clone()?;
            Ok((Some(text), rest))
        }
        _ => Err(StatementFault::Syntax),
    }
}

/// The text of PARAMETERS, if there is one, and what follows.
fn parameters(lexemes: &[Lexeme]) -> Result<(Option<Text>, &[Lexeme]), StatementFault>
    ensures { ReadGives (λ p. (p.0, p.1.now)) result (parameters_at lexemes.now) }
{
    match lexemes {
        [Lexeme::Word(Keyword::Parameters), rest @ ..] => enclosed_text(rest),
        _ => Ok((None, lexemes)),
    }
}

/// The number of PARALLEL, if there is one, where nothing else follows. Any number is taken here.
fn parallel(lexemes: &[Lexeme]) -> Result<Option<Whole>, StatementFault>
    ensures { ReadGives (λ p. p) result (parallel_of lexemes.now) }
{
    match lexemes {
        [] => Ok(None),
        [Lexeme::Word(Keyword::Parallel), Lexeme::Number(digits)] => Ok(Some(number(digits))),
        _ => Err(StatementFault::Syntax),
    }
}

/// The index of a column, by what follows the column.
fn index(
    name: &Name,
    table: &Name,
    column: &Name,
    lexemes: &[Lexeme],
) -> Result<Statement, StatementFault>
    ensures { StatementGives result (index_of name.now table.now column.now lexemes.now) }
{
    let (kind, rest) = kind(lexemes)?;
    let (parameters, rest) = parameters(rest)?;
    let parallel = parallel(rest)?;
    Ok(Statement::CreateIndex {
        name: name.clone()?,
        table: table.clone()?,
        column: column.clone()?,
        kind,
        parameters,
        parallel,
    })
}

/// The index of a table, by what follows the table.
fn index_on(name: &Name, table: &Name, lexemes: &[Lexeme]) -> Result<Statement, StatementFault>
    ensures { StatementGives result (index_on_of name.now table.now lexemes.now) }
{
    match lexemes {
        [
            Lexeme::Sign(Symbol::Open),
            Lexeme::Name(column),
            Lexeme::Sign(Symbol::Close),
            rest @ ..,
        ] => index(name, table, column, rest),
        _ => Err(StatementFault::Syntax),
    }
}

/// What follows CREATE INDEX.
fn create_index(lexemes: &[Lexeme]) -> Result<Statement, StatementFault>
    ensures { StatementGives result (create_index_of lexemes.now) }
{
    match lexemes {
        [
            Lexeme::Name(name),
            Lexeme::Word(Keyword::On),
            Lexeme::Name(table),
            rest @ ..,
        ] => index_on(name, table, rest),
        _ => Err(StatementFault::Syntax),
    }
}

/// What follows CREATE.
pub(crate) fn create(alloc: Global, lexemes: &[Lexeme]) -> Result<Statement, StatementFault>
    ensures { StatementGives result (create_of lexemes.now) }
{
    match lexemes {
        [Lexeme::Word(Keyword::Table), rest @ ..] => create_table(alloc, rest),
        [Lexeme::Word(Keyword::Index), rest @ ..] => create_index(rest),
        _ => Err(StatementFault::Syntax),
    }
}
