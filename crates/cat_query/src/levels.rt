//! What was read of a query, within each pair of parentheses that is open.

ghost use Rattle.std.specs.Prelude.{◌≡◌, ◌∷◌, [], IfOk, MatchOption, Some};
ghost use Rattle.q_tree.specs.Trees.{tree_of};
ghost use Rattle.cat_query.specs.Grammar.{phrase_of};
ghost use Rattle.cat_query.specs.Machine.{after_bar, chain_of, with_operand, after_close, after_minus, with_alternatives, finish, tree_at_end, new_level, put, put_in, start, step};
ghost use Rattle.cat_query.specs.Views.{level_of, levels_of, state_of, tree_in, EndsAs, Finishes, StepsTo};
ghost use Rattle.cat_query.specs.declared.levels.StepError.TheVariants.{Memory as NoMemory};

use crate::lexemes::Lexeme;
use ct_base::{Listed, Memory};
use q_tree::{Leaf, Query, Word};
use std::alloc::Global;

/// What was read within one pair of parentheses.
#[derive(Drop)]
pub(crate) struct Level {
    /// The alternatives before the last `|`.
    alternatives: Option<Query>,
    /// The operands after it, joined.
    chain: Option<Query>,
    /// Whether a `-` stands after them.
    without: bool,
}

/// Why a step isn't made.
#[derive(Clone, Copy, Debug, PartialEq, Eq)]
pub(crate) enum StepError {
    /// No query has the lexeme there.
    Refused,
    Memory,
}

impl From<Memory> for StepError {
    ghost from_gives = { λ _ fault. fault ≡ NoMemory };

    fn from(_: Memory) -> StepError {
        StepError::Memory
    }
}

fn empty_level() -> Level
    ensures { level_of result ≡ new_level }
{
    Level {
        alternatives: None,
        chain: None,
        without: false,
    }
}

/// The phrase of a word or a quoted text.
fn phrase_of(alloc: Global, word: Word) -> Result<Query, Memory>
    ensures { IfOk result (λ q. tree_of q ≡ phrase_of word) }
{
    let mut words = Vec::new(alloc);
    words.push(word)?;
    let mut slots = Vec::new(alloc);
    slots.push(Listed::of(words))?;
    Ok(Query::Leaf(Leaf::Phrase(Listed::of(slots))))
}

/// An operand after a chain.
fn with_operand(
    alloc: Global,
    chain: Option<Query>,
    without: bool,
    query: Query,
) -> Result<Query, Memory>
    ensures { IfOk result (λ q. tree_of q ≡ with_operand (tree_in chain) without (tree_of query)) }
{
    match chain {
        None => Ok(query),
        Some(chain) => {
            let left = Box::new(alloc, chain)?;
            let right = Box::new(alloc, query)?;
            if without {
                Ok(Query::Not(left, right))
            } else {
                Ok(Query::And(left, right))
            }
        }
    }
}

/// All alternatives, the last of which is this chain.
fn with_alternatives(
    alloc: Global,
    alternatives: Option<Query>,
    chain: Query,
) -> Result<Query, Memory>
    ensures { IfOk result (λ q. tree_of q ≡ with_alternatives (tree_in alternatives) (tree_of chain)) }
{
    match alternatives {
        None => Ok(chain),
        Some(alternatives) => {
            let left = Box::new(alloc, alternatives)?;
            let right = Box::new(alloc, chain)?;
            Ok(Query::Or(left, right))
        }
    }
}

/// The level with an operand more.
fn put(alloc: Global, level: Level, query: Query) -> Result<Level, Memory>
    ensures { IfOk result (λ l. level_of l ≡ put (tree_of query) (level_of level)) }
{
    let Level {
        alternatives,
        chain,
        without,
    } = level;
    let chain = with_operand(alloc, chain, without, query)?;
    Ok(Level {
        alternatives,
        chain: Some(chain),
        without: false,
    })
}

/// The alternatives and the chain after them, where an operand was read last.
fn end_of_chain(level: Level) -> Option<(Option<Query>, Query)>
    ensures { EndsAs (level_of level) result }
{
    let Level {
        alternatives,
        chain,
        without,
    } = level;
    if without {
        return None;
    }
    match chain {
        None => None,
        Some(chain) => Some((alternatives, chain)),
    }
}

/// What was read of a query.
#[derive(Drop)]
pub(crate) struct State {
    inner: Level,
    /// The levels around it, the outermost first.
    outer: Vec<Level>,
}

pub(crate) fn start(alloc: Global) -> State
    ensures { state_of result ≡ start }
{
    State {
        inner: empty_level(),
        outer: Vec::new(alloc),
    }
}

#[tactic(auto, using(crate::proofs::Stacks::levels_of_last))]
fn push_level(outer: Vec<Level>, level: Level) -> Result<Vec<Level>, Memory>
    ensures { IfOk result (λ levels. levels_of levels.items ≡ level_of level ∷ levels_of outer.items) }
{
    let mut outer = outer;
    outer.push(level)?;
    Ok(outer)
}

/// The innermost of the levels, and the others.
#[tactic(auto, using(crate::proofs::Stacks::levels_of_last, crate::proofs::Stacks::no_levels_left))]
fn pop_level(outer: Vec<Level>) -> Option<(Level, Vec<Level>)>
    ensures { MatchOption result (levels_of outer.items ≡ []) (λ x. levels_of outer.items ≡ level_of x.0 ∷ levels_of x.1.items) }
{
    let mut outer = outer;
    let level = outer.pop()?;
    Some((level, outer))
}

/// A `)` after what was read.
fn after_close(alloc: Global, inner: Level, outer: Vec<Level>) -> Result<State, StepError>
    ensures { StepsTo result (after_close (level_of inner) (levels_of outer.items) (chain_of (level_of inner))) }
{
    let Some((alternatives, chain)) = end_of_chain(inner) else {
        return Err(StepError::Refused);
    };
    let Some((level, outer)) = pop_level(outer) else {
        return Err(StepError::Refused);
    };
    let query = with_alternatives(alloc, alternatives, chain)?;
    let inner = put(alloc, level, query)?;
    Ok(State { inner, outer })
}

/// A `|` after what was read.
fn after_bar(alloc: Global, inner: Level, outer: Vec<Level>) -> Result<State, StepError>
    ensures { StepsTo result (after_bar (record { inner = level_of inner; outer = levels_of outer.items }) (chain_of (level_of inner))) }
{
    let Some((alternatives, chain)) = end_of_chain(inner) else {
        return Err(StepError::Refused);
    };
    let query = with_alternatives(alloc, alternatives, chain)?;
    let inner = Level {
        alternatives: Some(query),
        chain: None,
        without: false,
    };
    Ok(State { inner, outer })
}

/// A `-` after what was read.
fn after_minus(inner: Level, outer: Vec<Level>) -> Result<State, StepError>
    ensures { StepsTo result (after_minus (record { inner = level_of inner; outer = levels_of outer.items }) (chain_of (level_of inner))) }
{
    let Some((alternatives, chain)) = end_of_chain(inner) else {
        return Err(StepError::Refused);
    };
    let inner = Level {
        alternatives,
        chain: Some(chain),
        without: true,
    };
    Ok(State { inner, outer })
}

/// A word or a quoted text after what was read.
fn item(alloc: Global, inner: Level, outer: Vec<Level>, word: Word) -> Result<State, StepError>
    ensures { StepsTo result (Some (put_in (phrase_of word) (record { inner = level_of inner; outer = levels_of outer.items }))) }
{
    let query = phrase_of(alloc, word)?;
    let inner = put(alloc, inner, query)?;
    Ok(State { inner, outer })
}

/// A `(` after what was read.
fn open(inner: Level, outer: Vec<Level>) -> Result<State, StepError>
    ensures { StepsTo result (Some (record { inner = new_level; outer = level_of inner ∷ levels_of outer.items })) }
{
    let outer = push_level(outer, inner)?;
    let inner = empty_level();
    Ok(State { inner, outer })
}

/// What was read with the next lexeme, unless no query has it there.
pub(crate) fn step(alloc: Global, state: State, lexeme: Lexeme) -> Result<State, StepError>
    ensures { StepsTo result (step (state_of state) lexeme) }
{
    let State { inner, outer } = state;
    match lexeme {
        Lexeme::Item(word) => item(alloc, inner, outer, word),
        Lexeme::Open => open(inner, outer),
        Lexeme::Close => after_close(alloc, inner, outer),
        Lexeme::Bar => after_bar(alloc, inner, outer),
        Lexeme::Minus => after_minus(inner, outer),
        Lexeme::Bad => Err(StepError::Refused),
    }
}

/// The query of the outermost level, where the text may end there.
fn finish_level(alloc: Global, inner: Level) -> Result<Query, StepError>
    ensures { Finishes result (tree_at_end (level_of inner) [] (chain_of (level_of inner))) }
{
    let Some((alternatives, chain)) = end_of_chain(inner) else {
        return Err(StepError::Refused);
    };
    let query = with_alternatives(alloc, alternatives, chain)?;
    Ok(query)
}

/// The query, where the text may end here.
pub(crate) fn finish(alloc: Global, state: State) -> Result<Query, StepError>
    ensures { Finishes result (finish (state_of state)) }
{
    let State { inner, outer } = state;
    match pop_level(outer) {
        Some(_) => Err(StepError::Refused),
        None => finish_level(alloc, inner),
    }
}
