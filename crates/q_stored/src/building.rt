//! Queries from their heads.

ghost use Rattle.std.specs.Prelude.{◌≡◌, [], ◌∷◌, IfOk, IfSome, MatchOption, Some, OnOk};
ghost use Rattle.std.specs.Option.{option_map};
ghost use Rattle.q_tree.specs.ReducedQueries.{Both, reduced_of};
ghost use Rattle.q_stored.specs.declared.heads.Head.TheVariants.{Both as BothHead};
ghost use Rattle.q_stored.specs.Building.{PushesHead, query_of, reduced_stack, only};

use crate::heads::Head;
use ct_base::Memory;
use q_tree::{Flat, Op};
use std::alloc::Global;

#[tactic(auto, using(crate::proofs::Stacks::reduced_stack_last))]
fn push_query(queries: &mut Vec<Flat>, query: Flat) -> Result<(), Memory>
    ensures { OnOk result (reduced_stack queries.new.items ≡ reduced_of query ∷ reduced_stack queries.old.items) }
{
    queries.push(query)?;
    Ok(())
}

#[tactic(auto, using(crate::proofs::Stacks::reduced_stack_last, crate::proofs::Stacks::no_stack_left))]
fn pop_query(queries: &mut Vec<Flat>) -> Option<Flat>
    ensures { MatchOption result (reduced_stack queries.old.items ≡ []) (λ q. reduced_stack queries.old.items ≡ reduced_of q ∷ reduced_stack queries.new.items) }
{
    match queries.pop() {
        None => None,
        Some(query) => Some(query),
    }
}

/// An operator between two queries.
fn both(alloc: Global, op: Op, a: Flat, b: Flat) -> Result<Flat, Memory>
    ensures { IfOk result (λ q. reduced_of q ≡ Both op (reduced_of a) (reduced_of b)) }
{
    let a = Box::new(alloc, a)?;
    let b = Box::new(alloc, b)?;
    Ok(match op {
        Op::And => Flat::And(a, b),
        Op::Or => Flat::Or(a, b),
        Op::Not => Flat::Not(a, b),
        Op::Minus => Flat::Minus(a, b),
    })
}

/// The operator between the two queries on the top of the stack; None where there are fewer.
fn join_last(alloc: Global, queries: &mut Vec<Flat>, op: Op) -> Result<Option<Flat>, Memory>
    ensures { IfOk result (λ found. PushesHead (BothHead op) (reduced_stack queries.old.items) (reduced_stack queries.new.items) (option_map reduced_of found)) }
{
    let Some(a) = pop_query(queries) else {
        return Ok(None);
    };
    let Some(b) = pop_query(queries) else {
        return Ok(None);
    };
    Ok(Some(both(alloc, op, a, b)?))
}

/// The query of a head, which takes its parts from the top of the stack; None where there are too few.
fn query_of_head(alloc: Global, queries: &mut Vec<Flat>, head: Head) -> Result<Option<Flat>, Memory>
    ensures { IfOk result (λ found. PushesHead head (reduced_stack queries.old.items) (reduced_stack queries.new.items) (option_map reduced_of found)) }
{
    match head {
        Head::Term(phrases) => Ok(Some(Flat::Term(phrases))),
        Head::Both(op) => join_last(alloc, queries, op),
        Head::Weight(tenths) => match pop_query(queries) {
            Some(a) => Ok(Some(Flat::Weight(tenths, Box::new(alloc, a)?))),
            None => Ok(None),
        },
        Head::Above(number) => match pop_query(queries) {
            Some(a) => Ok(Some(Flat::Above(number, Box::new(alloc, a)?))),
            None => Ok(None),
        },
        Head::Near {
            operands,
            span,
            ordered,
        } => Ok(Some(Flat::Near {
            operands,
            span,
            ordered,
        })),
        Head::Within(place) => match pop_query(queries) {
            Some(a) => Ok(Some(Flat::Within(place, Box::new(alloc, a)?))),
            None => Ok(None),
        },
        Head::Define(phrases, sum) => Ok(Some(Flat::Define(phrases, sum))),
    }
}

/// The query whose prefix form the heads are; None where they are that of none.
///
/// It goes through the heads from the last to the first. Its cost is linear in their number.
pub(crate) fn build(alloc: Global, heads: Vec<Head>) -> Result<Option<Flat>, Memory>
    ensures { IfOk result (λ found. option_map reduced_of found ≡ query_of heads.items) }
{
    let mut rest = heads;
    let mut queries = Vec::new(alloc);
    'heads: while let Some(head) = rest.pop() {
        let Some(query) = query_of_head(alloc, &mut queries, head)? else {
            return Ok(None);
        };
        push_query(&mut queries, query)?;
    }
    Ok(only_query(queries))
}

/// The only query of a stack.
fn only_query(queries: Vec<Flat>) -> Option<Flat>
    ensures { option_map reduced_of result ≡ only (Some (reduced_stack queries.items)) }
{
    let mut queries = queries;
    let query = pop_query(&mut queries)?;
    match pop_query(&mut queries) {
        None => Some(query),
        Some(_) => None,
    }
}
