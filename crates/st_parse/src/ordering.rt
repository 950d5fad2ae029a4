//! The items of a SELECT's list and of its ORDER BY.

ghost use Rattle.std.specs.Prelude.{◌≡◌, ◌≤◌, length, IfOk};
ghost use Rattle.st_parse.specs.Ordering.{score_at, item_at, direction_at, order_at, orders_of};
ghost use Rattle.st_parse.specs.Reading.{ReadGives};

use crate::lexemes::{Keyword, Lexeme, Symbol};
use crate::listing::{Element, Separator, read_list};
use crate::numbers::number;
use crate::parsing::StatementFault;
use crate::statements::{Item, OrderItem};
use std::alloc::Global;

/// What follows SCORE: a label in parentheses.
fn read_score(lexemes: &[Lexeme]) -> Result<(Item, &[Lexeme]), StatementFault>
    ensures gives { ReadGives (λ x. (x.0, x.1.now)) result (score_at lexemes.now) }
    ensures rest { IfOk result (λ x. length x.1.now ≤ length lexemes.now) }
{
    match lexemes {
        [
            Lexeme::Sign(Symbol::Open),
            Lexeme::Number(digits),
            Lexeme::Sign(Symbol::Close),
            rest @ ..,
        ] => Ok((Item::Score(number(digits)), rest)),
        _ => Err(StatementFault::Syntax),
    }
}

impl Element for Item {
    ghost item_at = { item_at };

    fn read(_alloc: Global, lexemes: &[Lexeme]) -> Result<(Item, &[Lexeme]), StatementFault> {
        match lexemes {
            [Lexeme::Name(name), rest @ ..] => Ok((Item::Column(name.clone()?), rest)),
            [Lexeme::Word(Keyword::Score), rest @ ..] => read_score(rest),
            _ => Err(StatementFault::Syntax),
        }
    }
}

/// Whether the greatest comes first, by the word for a direction at the beginning, and what follows it. Without one the least does.
fn read_direction(lexemes: &[Lexeme]) -> (bool, &[Lexeme])
    ensures direction { (result.0, result.1.now) ≡ direction_at lexemes.now }
    ensures rest { length result.1.now ≤ length lexemes.now }
{
    match lexemes {
        [Lexeme::Word(Keyword::Desc), rest @ ..] => (true, rest),
        [Lexeme::Word(Keyword::Asc), rest @ ..] => (false, rest),
        _ => (false, lexemes),
    }
}

impl Element for OrderItem {
    ghost item_at = { order_at };

    fn read(alloc: Global, lexemes: &[Lexeme]) -> Result<(OrderItem, &[Lexeme]), StatementFault> {
        let (item, rest) = Item::read(alloc, lexemes)?;
        let (down, rest) = read_direction(rest);
        Ok((OrderItem { item, down }, rest))
    }
}

/// Reads ORDER BY and items with a comma between them, where nothing follows; there is no item where nothing stands here.
pub(crate) fn read_orders(
    alloc: Global,
    lexemes: &[Lexeme],
) -> Result<Vec<OrderItem>, StatementFault>
    ensures { ReadGives (λ v. v.items) result (orders_of lexemes.now) }
{
    match lexemes {
        [] => Ok(Vec::new(alloc)),
        [
            Lexeme::Word(Keyword::Order),
            Lexeme::Word(Keyword::By),
            rest @ ..,
        ] => {
            let (orders, rest) = read_list(alloc, Separator::Comma, rest)?;
            match rest {
                [] => Ok(orders),
                _ => Err(StatementFault::Syntax),
            }
        }
        _ => Err(StatementFault::Syntax),
    }
}
