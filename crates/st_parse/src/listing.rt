//! Lists of items with a separator between them.

ghost use Rattle.std.specs.Prelude.{◌≡◌, ◌≤◌, ◌∷◌, length, IfOk, MatchOption};
ghost use Rattle.st_parse.specs.Lists.{EndsList, Reader, lexeme_of, list_at, enclosed, enclosed_last, where_at, where_of};
ghost use Rattle.st_parse.specs.Reading.{ReadGives};

use crate::lexemes::{Keyword, Lexeme, Symbol};
use crate::parsing::StatementFault;
use std::alloc::Global;

/// What stands between two items of a list.
#[derive(Clone, Copy)]
pub(crate) enum Separator {
    Comma,
    And,
}

/// What may stand in a list.
pub(crate) trait Element: Drop + Sized {
    /// The item at the beginning and what follows it, as the grammar reads them.
    ghost item_at: { Reader Self };

    /// Reads the item at the beginning; gives what follows it too.
    fn read(alloc: Global, lexemes: &[Lexeme]) -> Result<(Self, &[Lexeme]), StatementFault>
        ensures gives { ReadGives (λ x. (x.0, x.1.now)) result (item_at lexemes.now) }
        ensures rest { IfOk result (λ x. length x.1.now ≤ length lexemes.now) };
}

/// What follows the separator at the beginning, if it stands there.
fn after_separator(separator: Separator, lexemes: &[Lexeme]) -> Option<&[Lexeme]>
    ensures { MatchOption result (EndsList separator lexemes.now) (λ next. lexemes.now ≡ lexeme_of separator ∷ next.now) }
{
    match separator {
        Separator::Comma => match lexemes {
            [Lexeme::Sign(Symbol::Comma), next @ ..] => Some(next),
            _ => None,
        },
        Separator::And => match lexemes {
            [Lexeme::Word(Keyword::And), next @ ..] => Some(next),
            _ => None,
        },
    }
}

/// Reads one item or more, with the separator between them; gives what follows them too.
pub(crate) fn read_list<T: Element>(
    alloc: Global,
    separator: Separator,
    lexemes: &[Lexeme],
) -> Result<(Vec<T>, &[Lexeme]), StatementFault>
    ensures gives { ReadGives (λ x. (x.0.items, x.1.now)) result (list_at separator T.item_at lexemes.now) }
    ensures rest { IfOk result (λ x. length x.1.now ≤ length lexemes.now) }
{
    let mut items = Vec::new(alloc);
    let mut rest = lexemes;
    'items: loop {
        match T::read(alloc, rest) {
            Ok((item, after)) => {
                items.push(item)?;
                match after_separator(separator, after) {
                    Some(next) => rest = next,
                    None => return Ok((items, after)),
                }
            }
            Err(fault) => return Err(fault),
        }
    }
}

/// Reads a list in parentheses; gives what follows it too.
pub(crate) fn read_enclosed<T: Element>(
    alloc: Global,
    lexemes: &[Lexeme],
) -> Result<(Vec<T>, &[Lexeme]), StatementFault>
    ensures gives { ReadGives (λ x. (x.0.items, x.1.now)) result (enclosed T.item_at lexemes.now) }
    ensures rest { IfOk result (λ x. length x.1.now ≤ length lexemes.now) }
{
    let [Lexeme::Sign(Symbol::Open), rest @ ..] = lexemes else {
        return Err(StatementFault::Syntax);
    };
    match read_list(alloc, Separator::Comma, rest) {
        Ok((items, after)) => match after {
            [Lexeme::Sign(Symbol::Close), rest @ ..] => Ok((items, rest)),
            _ => Err(StatementFault::Syntax),
        },
        Err(fault) => Err(fault),
    }
}

/// Reads a list in parentheses, where nothing follows it.
pub(crate) fn read_enclosed_last<T: Element>(
    alloc: Global,
    lexemes: &[Lexeme],
) -> Result<Vec<T>, StatementFault>
    ensures { ReadGives (λ v. v.items) result (enclosed_last T.item_at lexemes.now) }
{
    match read_enclosed(alloc, lexemes) {
        Ok((items, [])) => Ok(items),
        Ok(_) => Err(StatementFault::Syntax),
        Err(fault) => Err(fault),
    }
}

/// Reads WHERE and items with AND between them; gives what follows them too. There is no item where WHERE doesn't stand here.
pub(crate) fn read_where<T: Element>(
    alloc: Global,
    lexemes: &[Lexeme],
) -> Result<(Vec<T>, &[Lexeme]), StatementFault>
    ensures { ReadGives (λ x. (x.0.items, x.1.now)) result (where_at T.item_at lexemes.now) }
{
    match lexemes {
        [Lexeme::Word(Keyword::Where), rest @ ..] => read_list(alloc, Separator::And, rest),
        _ => Ok((Vec::new(alloc), lexemes)),
    }
}

/// Reads WHERE and items with AND between them, where nothing follows; there is no item where nothing stands here.
pub(crate) fn read_where_last<T: Element>(
    alloc: Global,
    lexemes: &[Lexeme],
) -> Result<Vec<T>, StatementFault>
    ensures { ReadGives (λ v. v.items) result (where_of T.item_at lexemes.now) }
{
    match read_where(alloc, lexemes) {
        Ok((items, [])) => Ok(items),
        Ok(_) => Err(StatementFault::Syntax),
        Err(fault) => Err(fault),
    }
}
