//! Operators over what may be nothing.

ghost use Rattle.std.specs.Prelude.{◌≡◌, IfOk};
ghost use Rattle.std.specs.Option.{option_map};
ghost use Rattle.q_tree.specs.ReducedQueries.{reduced_of, Both};
ghost use Rattle.q_reduce.specs.Operators.{reduced_around};
ghost use Rattle.q_reduce.specs.Reducing.{near_query, define_query, both_query, right_alone, term};

use ct_base::{Listed, Memory};
use q_tree::{Flat, Op, Phrase, Phrases, Place, SumStep};
use std::alloc::Global;

/// A term of these phrases, which is nothing where there are none.
pub(crate) fn term(phrases: Vec<Phrase>) -> Option<Flat>
    ensures { option_map reduced_of result ≡ term phrases.items }
{
    if phrases.is_empty() {
        return None;
    }
    Some(Flat::Term(Listed::of(phrases)))
}

/// Two queries with an operator between.
fn both(alloc: Global, op: Op, a: Flat, b: Flat) -> Result<Flat, Memory>
    ensures { IfOk result (λ q. reduced_of q ≡ Both op (reduced_of a) (reduced_of b)) }
{
    let a = Box::new(alloc, a)?;
    let b = Box::new(alloc, b)?;
    Ok(match op {
        Op::Or => Flat::Or(a, b),
        Op::And => Flat::And(a, b),
        Op::Not => Flat::Not(a, b),
        Op::Minus => Flat::Minus(a, b),
    })
}

/// What an operator leaves of its right side, where the left one is nothing.
fn right_alone(op: Op, b: Flat) -> Option<Flat>
    ensures { option_map reduced_of result ≡ right_alone op (reduced_of b) }
{
    match op {
        Op::Or => Some(b),
        Op::And => Some(b),
        Op::Not => None,
        Op::Minus => None,
    }
}

/// What an operator makes of its sides, either of which may be nothing.
pub(crate) fn both_query(
    alloc: Global,
    op: Op,
    a: Option<Flat>,
    b: Option<Flat>,
) -> Result<Option<Flat>, Memory>
    ensures { IfOk result (λ q. option_map reduced_of q ≡ both_query op (option_map reduced_of a) (option_map reduced_of b)) }
{
    match (a, b) {
        (Some(a), Some(b)) => Ok(Some(both(alloc, op, a, b)?)),
        (Some(a), None) => Ok(Some(a)),
        (None, Some(b)) => Ok(right_alone(op, b)),
        (None, None) => Ok(None),
    }
}

/// What stands around a part.
#[derive(Drop)]
pub(crate) enum Around {
    /// A weight in tenths.
    Weight(u8),
    /// A number that the score has to be above.
    Above(u8),
    /// A place in which the part is looked for.
    Within(Place),
}

/// The part with what stands around it, unless it is nothing.
pub(crate) fn around_query(
    alloc: Global,
    around: Around,
    a: Option<Flat>,
) -> Result<Option<Flat>, Memory>
    ensures { IfOk result (λ q. option_map reduced_of q ≡ option_map (reduced_around around) (option_map reduced_of a)) }
{
    let Some(a) = a else {
        return Ok(None);
    };
    let a = Box::new(alloc, a)?;
    Ok(Some(match around {
        Around::Weight(tenths) => Flat::Weight(tenths, a),
        Around::Above(number) => Flat::Above(number, a),
        Around::Within(place) => Flat::Within(place, a),
    }))
}

/// Operands near one another. One that is left is itself.
pub(crate) fn near_query(operands: Vec<Phrases>, span: u8, ordered: bool) -> Option<Flat>
    ensures { option_map reduced_of result ≡ near_query span ordered operands.items }
{
    let mut operands = operands;
    if operands.len() > 1 {
        return Some(Flat::Near {
            operands: Listed::of(operands),
            span,
            ordered,
        });
    }
    match operands.pop() {
        None => None,
        Some(phrases) => Some(Flat::Term(phrases)),
    }
}

/// A term of these phrases with the sum that its score is, which is nothing where there are none.
pub(crate) fn define_query(
    alloc: Global,
    phrases: Vec<Phrase>,
    sum: &[SumStep],
) -> Result<Option<Flat>, Memory>
    ensures { IfOk result (λ q. option_map reduced_of q ≡ define_query sum.now phrases.items) }
{
    if phrases.is_empty() {
        return Ok(None);
    }
    let sum = Vec::from_slice(alloc, sum)?;
    Ok(Some(Flat::Define(Listed::of(phrases), Listed::of(sum))))
}
