//! Reading a structured query from left to right, a lexeme at a time.

ghost use Rattle.std.specs.Prelude.{◌≡◌, true, false, IfOk, Some};
ghost use Rattle.cat_where.specs.Machine.{after_column, after_cond, after_member, after_name, after_order, at_start, compared, number_in, start, state_at, step, wants_and, wants_by, wants_cond, wants_digits, wants_open, wants_order, wants_value, with_cond, with_order, with_value};
ghost use Rattle.cat_where.specs.Results.{GoesTo, StepsTo};

use crate::stages::{Role, Stage, State, StepError, Where};
use ct_base::{Listed, Memory, Name};
use st_parse::{
    Cond, Item, Keyword, Lexeme, Operand, OrderItem, Symbol, Whole, comparison_of, negated, number,
};
use std::alloc::Global;

pub(crate) fn start(alloc: Global) -> State
    ensures { result ≡ start }
{
    State {
        stage: Stage::Start,
        done: Where {
            conds: Listed::empty(alloc),
            orders: Listed::empty(alloc),
        },
    }
}

fn state_at(stage: Stage, done: Where) -> State
    ensures { result ≡ state_at stage done }
{
    State { stage, done }
}

/// The query with a condition more.
fn with_cond(cond: Cond, done: Where) -> Result<Where, Memory>
    ensures { IfOk result (λ more. more ≡ with_cond cond done) }
{
    let Where { conds, orders } = done;
    let conds = conds.with(cond)?;
    Ok(Where { conds, orders })
}

/// The query with an item of the order more.
pub(crate) fn with_order(name: Name, down: bool, done: Where) -> Result<Where, Memory>
    ensures { IfOk result (λ more. more ≡ with_order name down done) }
{
    let Where { conds, orders } = done;
    let item = Item::Column(name);
    let orders = orders.with(OrderItem { item, down })?;
    Ok(Where { conds, orders })
}

/// A condition was read to its end.
fn end_cond(cond: Cond, done: Where) -> Result<State, StepError>
    ensures { GoesTo result (Some (state_at Stage.AfterCond (with_cond cond done))) }
{
    let done = with_cond(cond, done)?;
    Ok(state_at(Stage::AfterCond, done))
}

/// A value was read.
fn with_value(role: Role, value: Operand, done: Where) -> Result<State, StepError>
    ensures { GoesTo result (Some (with_value role value done)) }
{
    match role {
        Role::Compared(column, op) => end_cond(Cond::Compare { column, op, value }, done),
        Role::Low(column) => Ok(state_at(Stage::WantsAnd(column, value), done)),
        Role::High(column, low) => {
            let high = value;
            end_cond(Cond::Between { column, low, high }, done)
        }
        Role::Member(column, values) => {
            let values = values.with(value)?;
            Ok(state_at(Stage::AfterMember(column, values), done))
        }
    }
}

/// A number was read where a value may stand.
fn number_in(role: Role, number: Whole, done: Where) -> Result<State, StepError>
    ensures { StepsTo result (number_in true role number done) (number_in false role number done) }
{
    match number {
        Whole::Fits(_) => with_value(role, Operand::Number(number), done),
        Whole::Beyond => Err(StepError::OutOfRange),
    }
}

/// The lexeme where a query begins.
fn at_start(done: Where, lexeme: Lexeme) -> Result<State, StepError>
    ensures { GoesTo result (at_start done lexeme) }
{
    match lexeme {
        Lexeme::Name(column) => Ok(state_at(Stage::AfterColumn(column), done)),
        Lexeme::Word(Keyword::Order) => Ok(state_at(Stage::WantsBy, done)),
        _ => Err(StepError::Refused),
    }
}

/// The lexeme after an AND between conditions.
fn wants_cond(done: Where, lexeme: Lexeme) -> Result<State, StepError>
    ensures { GoesTo result (wants_cond done lexeme) }
{
    match lexeme {
        Lexeme::Name(column) => Ok(state_at(Stage::AfterColumn(column), done)),
        _ => Err(StepError::Refused),
    }
}

/// The sign after a column.
fn compared(column: Name, sign: Symbol, done: Where) -> Result<State, StepError>
    ensures { GoesTo result (compared column sign done) }
{
    match comparison_of(sign) {
        Some(op) => Ok(state_at(Stage::WantsValue(Role::Compared(column, op)), done)),
        None => Err(StepError::Refused),
    }
}

/// The lexeme after a column.
fn after_column(column: Name, done: Where, lexeme: Lexeme) -> Result<State, StepError>
    ensures { GoesTo result (after_column column done lexeme) }
{
    match lexeme {
        Lexeme::Sign(sign) => compared(column, sign, done),
        Lexeme::Word(Keyword::Between) => {
            Ok(state_at(Stage::WantsValue(Role::Low(column)), done))
        }
        Lexeme::Word(Keyword::In) => Ok(state_at(Stage::WantsOpen(column), done)),
        _ => Err(StepError::Refused),
    }
}

/// The lexeme after IN.
fn wants_open(alloc: Global, column: Name, done: Where, lexeme: Lexeme) -> Result<State, StepError>
    ensures { GoesTo result (wants_open column done lexeme) }
{
    match lexeme {
        Lexeme::Sign(Symbol::Open) => Ok(state_at(
            Stage::WantsValue(Role::Member(column, Listed::empty(alloc))),
            done,
        )),
        _ => Err(StepError::Refused),
    }
}

/// The lexeme where a value is wanted.
fn wants_value(role: Role, done: Where, lexeme: Lexeme) -> Result<State, StepError>
    ensures { StepsTo result (wants_value true role done lexeme) (wants_value false role done lexeme) }
{
    match lexeme {
        Lexeme::Text(text) => with_value(role, Operand::Text(text), done),
        Lexeme::Number(digits) => number_in(role, number(&digits), done),
        Lexeme::Sign(Symbol::Minus) => Ok(state_at(Stage::WantsDigits(role), done)),
        _ => Err(StepError::Refused),
    }
}

/// The lexeme after the minus of a value.
fn wants_digits(role: Role, done: Where, lexeme: Lexeme) -> Result<State, StepError>
    ensures { StepsTo result (wants_digits true role done lexeme) (wants_digits false role done lexeme) }
{
    match lexeme {
        Lexeme::Number(digits) => number_in(role, negated(&digits), done),
        _ => Err(StepError::Refused),
    }
}

/// The lexeme after the low value of BETWEEN.
fn wants_and(column: Name, low: Operand, done: Where, lexeme: Lexeme) -> Result<State, StepError>
    ensures { GoesTo result (wants_and column low done lexeme) }
{
    match lexeme {
        Lexeme::Word(Keyword::And) => Ok(state_at(
            Stage::WantsValue(Role::High(column, low)),
            done,
        )),
        _ => Err(StepError::Refused),
    }
}

/// The lexeme after a value of IN.
fn after_member(
    column: Name,
    values: Listed<Operand>,
    done: Where,
    lexeme: Lexeme,
) -> Result<State, StepError>
    ensures { GoesTo result (after_member column values done lexeme) }
{
    match lexeme {
        Lexeme::Sign(Symbol::Comma) => Ok(state_at(
            Stage::WantsValue(Role::Member(column, values)),
            done,
        )),
        Lexeme::Sign(Symbol::Close) => end_cond(Cond::OneOf { column, values }, done),
        _ => Err(StepError::Refused),
    }
}

/// The lexeme after a condition.
fn after_cond(done: Where, lexeme: Lexeme) -> Result<State, StepError>
    ensures { GoesTo result (after_cond done lexeme) }
{
    match lexeme {
        Lexeme::Word(Keyword::And) => Ok(state_at(Stage::WantsCond, done)),
        Lexeme::Word(Keyword::Order) => Ok(state_at(Stage::WantsBy, done)),
        _ => Err(StepError::Refused),
    }
}

/// The lexeme after ORDER.
fn wants_by(done: Where, lexeme: Lexeme) -> Result<State, StepError>
    ensures { GoesTo result (wants_by done lexeme) }
{
    match lexeme {
        Lexeme::Word(Keyword::By) => Ok(state_at(Stage::WantsOrder, done)),
        _ => Err(StepError::Refused),
    }
}

/// The lexeme where an item of the order is wanted.
fn wants_order(done: Where, lexeme: Lexeme) -> Result<State, StepError>
    ensures { GoesTo result (wants_order done lexeme) }
{
    match lexeme {
        Lexeme::Name(name) => Ok(state_at(Stage::AfterName(name), done)),
        _ => Err(StepError::Refused),
    }
}

/// An item of the order was read to its end.
fn end_order(name: Name, down: bool, stage: Stage, done: Where) -> Result<State, StepError>
    ensures { GoesTo result (Some (state_at stage (with_order name down done))) }
{
    let done = with_order(name, down, done)?;
    Ok(state_at(stage, done))
}

/// The lexeme after a column of the order.
fn after_name(name: Name, done: Where, lexeme: Lexeme) -> Result<State, StepError>
    ensures { GoesTo result (after_name name done lexeme) }
{
    match lexeme {
        Lexeme::Word(Keyword::Asc) => end_order(name, false, Stage::AfterOrder, done),
        Lexeme::Word(Keyword::Desc) => end_order(name, true, Stage::AfterOrder, done),
        Lexeme::Sign(Symbol::Comma) => end_order(name, false, Stage::WantsOrder, done),
        _ => Err(StepError::Refused),
    }
}

/// The lexeme after an item of the order.
fn after_order(done: Where, lexeme: Lexeme) -> Result<State, StepError>
    ensures { GoesTo result (after_order done lexeme) }
{
    match lexeme {
        Lexeme::Sign(Symbol::Comma) => Ok(state_at(Stage::WantsOrder, done)),
        _ => Err(StepError::Refused),
    }
}

/// What was read with the next lexeme, unless no structured query has it there.
pub(crate) fn step(alloc: Global, state: State, lexeme: Lexeme) -> Result<State, StepError>
    ensures { StepsTo result (step true state lexeme) (step false state lexeme) }
{
    let State { stage, done } = state;
    match stage {
        Stage::Start => at_start(done, lexeme),
        Stage::WantsCond => wants_cond(done, lexeme),
        Stage::AfterColumn(column) => after_column(column, done, lexeme),
        Stage::WantsOpen(column) => wants_open(alloc, column, done, lexeme),
        Stage::WantsValue(role) => wants_value(role, done, lexeme),
        Stage::WantsDigits(role) => wants_digits(role, done, lexeme),
        Stage::WantsAnd(column, low) => wants_and(column, low, done, lexeme),
        Stage::AfterMember(column, values) => after_member(column, values, done, lexeme),
        Stage::AfterCond => after_cond(done, lexeme),
        Stage::WantsBy => wants_by(done, lexeme),
        Stage::WantsOrder => wants_order(done, lexeme),
        Stage::AfterName(name) => after_name(name, done, lexeme),
        Stage::AfterOrder => after_order(done, lexeme),
    }
}
