//! SELECT.

ghost use Rattle.std.specs.Prelude.{◌≡◌, ◌≤◌, nat_le, count_by, length, IfOk};
ghost use Rattle.st_parse.specs.Selecting.{label_at, searched_at, threshold_at, contains_at, structured_at, is_zero, above_zero_at, catsearch_at, matches_at, pred_at, is_search, from_of, count_at, items_at, select_list_at, ordered_of, select_of};
ghost use Rattle.st_parse.specs.Reading.{ReadGives, StatementGives};

use crate::lexemes::{Keyword, Lexeme, Symbol};
use crate::listing::{Element, Separator, read_list, read_where};
use crate::numbers::number;
use crate::ordering::read_orders;
use crate::parsing::StatementFault;
use crate::statements::{Cond, Items, Orders, Pred, Preds, SelectList, Statement, Whole};
use ct_base::{Name, Text};
use std::alloc::Global;

/// The label at the beginning, if there is one, and what follows it.
fn read_label(lexemes: &[Lexeme]) -> (Option<Whole>, &[Lexeme])
    ensures label { (result.0, result.1.now) ≡ label_at lexemes.now }
    ensures rest { length result.1.now ≤ length lexemes.now }
{
    match lexemes {
        [
            Lexeme::Sign(Symbol::Comma),
            Lexeme::Number(digits),
            rest @ ..,
        ] => (Some(number(digits)), rest),
        _ => (None, lexemes),
    }
}

/// The column and the text of a search, at the beginning of what stands behind its name, and what follows them.
fn read_searched(lexemes: &[Lexeme]) -> Result<(Name, Text, &[Lexeme]), StatementFault>
    ensures gives { ReadGives (λ x. ((x.0, x.1), x.2.now)) result (searched_at lexemes.now) }
    ensures rest { IfOk result (λ x. length x.2.now ≤ length lexemes.now) }
{
    match lexemes {
        [
            Lexeme::Sign(Symbol::Open),
            Lexeme::Name(column),
            Lexeme::Sign(Symbol::Comma),
            Lexeme::Text(text),
            rest @ ..,
        ] => Ok((column.clone()?, text.clone()?, rest)),
        _ => Err(StatementFault::Syntax),
    }
}

/// The end of a search, with the number that its score has to be above, and what follows it.
fn read_threshold(lexemes: &[Lexeme]) -> Result<(Whole, &[Lexeme]), StatementFault>
    ensures gives { ReadGives (λ x. (x.0, x.1.now)) result (threshold_at lexemes.now) }
    ensures rest { IfOk result (λ x. length x.1.now ≤ length lexemes.now) }
{
    match lexemes {
        [
            Lexeme::Sign(Symbol::Close),
            Lexeme::Sign(Symbol::Greater),
            Lexeme::Number(digits),
            rest @ ..,
        ] => Ok((number(digits), rest)),
        _ => Err(StatementFault::Syntax),
    }
}

/// CONTAINS, by what follows it.
fn read_contains(lexemes: &[Lexeme]) -> Result<(Pred, &[Lexeme]), StatementFault>
    ensures gives { ReadGives (λ x. (x.0, x.1.now)) result (contains_at lexemes.now) }
    ensures rest { IfOk result (λ x. length x.1.now ≤ length lexemes.now) }
{
    let (column, query, rest) = read_searched(lexemes)?;
    let (label, rest) = read_label(rest);
    let (above, rest) = read_threshold(rest)?;
    Ok((
        Pred::Contains {
            column,
            query,
            label,
            above,
        },
        rest,
    ))
}

/// A comma, and what stands in the place of a structured query: a text, or NULL, which is none. And what follows them.
fn read_structured(lexemes: &[Lexeme]) -> Result<(Option<Text>, &[Lexeme]), StatementFault>
    ensures gives { ReadGives (λ x. (x.0, x.1.now)) result (structured_at lexemes.now) }
    ensures rest { IfOk result (λ x. length x.1.now ≤ length lexemes.now) }
{
    match lexemes {
        [
            Lexeme::Sign(Symbol::Comma),
            Lexeme::Word(Keyword::Null),
            rest @ ..,
        ] => Ok((None, rest)),
        [Lexeme::Sign(Symbol::Comma), Lexeme::Text(text), rest @ ..] => Ok((
            Some(text.clone()?),
            rest,
        )),
        _ => Err(StatementFault::Syntax),
    }
}

/// Whether a number is 0.
fn is_zero(number: Whole) -> bool
    ensures { result ≡ is_zero number }
{
    match number {
        Whole::Fits(n) => n == 0,
        Whole::Beyond => false,
    }
}

/// A search that asks for a score above 0, by what stands behind its texts, and what follows it.
fn read_above_zero(pred: Pred, lexemes: &[Lexeme]) -> Result<(Pred, &[Lexeme]), StatementFault>
    ensures gives { ReadGives (λ x. (x.0, x.1.now)) result (above_zero_at pred lexemes.now) }
    ensures rest { IfOk result (λ x. length x.1.now ≤ length lexemes.now) }
{
    let (above, rest) = read_threshold(lexemes)?;
    if !is_zero(above) {
        return Err(StatementFault::Syntax);
    }
    Ok((pred, rest))
}

/// CATSEARCH, by what follows it.
fn read_catsearch(lexemes: &[Lexeme]) -> Result<(Pred, &[Lexeme]), StatementFault>
    ensures gives { ReadGives (λ x. (x.0, x.1.now)) result (catsearch_at lexemes.now) }
    ensures rest { IfOk result (λ x. length x.1.now ≤ length lexemes.now) }
{
    let (column, query, rest) = read_searched(lexemes)?;
    let (structured, rest) = read_structured(rest)?;
    read_above_zero(
        Pred::Catsearch {
            column,
            query,
            structured,
        },
        rest,
    )
}

/// MATCHES, by what follows it.
fn read_matches(lexemes: &[Lexeme]) -> Result<(Pred, &[Lexeme]), StatementFault>
    ensures gives { ReadGives (λ x. (x.0, x.1.now)) result (matches_at lexemes.now) }
    ensures rest { IfOk result (λ x. length x.1.now ≤ length lexemes.now) }
{
    let (column, document, rest) = read_searched(lexemes)?;
    read_above_zero(Pred::Matches { column, document }, rest)
}

impl Element for Pred {
    ghost item_at = { pred_at };

    fn read(alloc: Global, lexemes: &[Lexeme]) -> Result<(Pred, &[Lexeme]), StatementFault> {
        match lexemes {
            [Lexeme::Word(Keyword::Contains), rest @ ..] => read_contains(rest),
            [Lexeme::Word(Keyword::Catsearch), rest @ ..] => read_catsearch(rest),
            [Lexeme::Word(Keyword::Matches), rest @ ..] => read_matches(rest),
            _ => {
                let (cond, rest) = Cond::read(alloc, lexemes)?;
                Ok((Pred::Cond(cond), rest))
            }
        }
    }
}

/// Whether a predicate is a search, and no condition.
fn is_search(pred: &Pred) -> bool
    ensures { result ≡ is_search pred.now }
{
    match pred {
        Pred::Cond(_) => false,
        _ => true,
    }
}

/// Whether at most one of the predicates is a search.
fn has_at_most_one_search(preds: &[Pred]) -> bool
    ensures { result ≡ nat_le (count_by is_search preds.now) 1 }
{
    preds.iter().filter(|pred| is_search(pred)).count() <= 1
}

/// What follows the predicates: the order, where nothing follows it.
fn ordered(
    alloc: Global,
    list: SelectList,
    table: &Name,
    preds: Vec<Pred>,
    lexemes: &[Lexeme],
) -> Result<Statement, StatementFault>
    ensures { StatementGives result (ordered_of list table.now (preds.items, lexemes.now)) }
{
    let orders = read_orders(alloc, lexemes)?;
    if !has_at_most_one_search(preds.as_slice()) {
        return Err(StatementFault::Syntax);
    }
    Ok(Statement::Select {
        list,
        table: table.clone()?,
        preds: Preds::of(preds),
        orders: Orders::of(orders),
    })
}

/// What follows the list.
fn from(alloc: Global, list: SelectList, lexemes: &[Lexeme]) -> Result<Statement, StatementFault>
    ensures { StatementGives result (from_of list lexemes.now) }
{
    match lexemes {
        [Lexeme::Word(Keyword::From), Lexeme::Name(table), rest @ ..] => {
            let (preds, rest) = read_where(alloc, rest)?;
            ordered(alloc, list, table, preds, rest)
        }
        _ => Err(StatementFault::Syntax),
    }
}

/// What follows COUNT: a `*` in parentheses.
fn read_count(lexemes: &[Lexeme]) -> Result<(SelectList, &[Lexeme]), StatementFault>
    ensures { ReadGives (λ x. (x.0, x.1.now)) result (count_at lexemes.now) }
{
    match lexemes {
        [
            Lexeme::Sign(Symbol::Open),
            Lexeme::Sign(Symbol::Star),
            Lexeme::Sign(Symbol::Close),
            rest @ ..,
        ] => Ok((SelectList::CountAll, rest)),
        _ => Err(StatementFault::Syntax),
    }
}

/// Items with a comma between them, and what follows them.
fn read_items(alloc: Global, lexemes: &[Lexeme]) -> Result<(SelectList, &[Lexeme]), StatementFault>
    ensures { ReadGives (λ x. (x.0, x.1.now)) result (items_at lexemes.now) }
{
    let (items, rest) = read_list(alloc, Separator::Comma, lexemes)?;
    Ok((SelectList::Items(Items::of(items)), rest))
}

/// The list at the beginning, and what follows it.
fn read_select_list(
    alloc: Global,
    lexemes: &[Lexeme],
) -> Result<(SelectList, &[Lexeme]), StatementFault>
    ensures { ReadGives (λ x. (x.0, x.1.now)) result (select_list_at lexemes.now) }
{
    match lexemes {
        [Lexeme::Sign(Symbol::Star), rest @ ..] => Ok((SelectList::Star, rest)),
        [Lexeme::Word(Keyword::Count), rest @ ..] => read_count(rest),
        _ => read_items(alloc, lexemes),
    }
}

/// What follows SELECT.
pub(crate) fn select(alloc: Global, lexemes: &[Lexeme]) -> Result<Statement, StatementFault>
    ensures { StatementGives result (select_of lexemes.now) }
{
    let (list, rest) = read_select_list(alloc, lexemes)?;
    from(alloc, list, rest)
}
