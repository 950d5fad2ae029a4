//! Reduction of queries.
#![tactic(auto)]

ghost use Rattle.std.specs.Prelude.{◌≡◌, IfOk, IfSome, true, false};
ghost use Rattle.std.specs.List.{list_all};
ghost use Rattle.q_tree.specs.Limits.{keeps_limits, leaves_keep_limits};
ghost use Rattle.q_tree.specs.Soundness.{is_sound};
ghost use Rattle.q_tree.specs.Trees.{tree_of};
ghost use Rattle.q_tree.specs.ReducedQueries.{reduced_of};
ghost use Rattle.q_reduce.specs.Faults.{faults, leaves_faults, operands_faults};
ghost use Rattle.q_reduce.specs.Reducing.{near_query, define_query, kept_operands, operand_phrases, reduced};
ghost use Rattle.q_reduce.specs.Results.{Reduces, context_of};

use crate::faults::ReduceFault;
use crate::operators::Around::{Above, Weight, Within};
use crate::operators::{around_query, both_query, define_query, near_query, term};
use crate::phrases::{leaf_phrases, operand_phrases, operands};
use crate::sections::section;
use crate::thesauri::NamedThesaurus;
use ct_base::Listed;
use q_tree::{Flat, Leaf, Op, Query, SumStep};
use std::alloc::Global;
use tx_lexer::LexerOptions;
use tx_stop::StopKeys;
use tx_tags::Group;

/// By what a query is reduced: what an index copied when it was made, and the thesauri that are there among those that the query names.
#[derive(Clone, Copy)]
pub struct ReduceCtx<'a> {
    pub lexer: &'a LexerOptions,
    pub stop: &'a StopKeys,
    pub group: &'a Group,
    pub thesauri: &'a [NamedThesaurus],
}

/// The query as it is looked for in an index: with keys in place of words, and without stopwords. None is a query that finds
/// nothing. A fault is the first in the order of the query's text.
///
/// Its cost is linear in the size of the query, but for the logarithm of the number of stopwords for each word, the number of
/// sections for each WITHIN, the square of the number of words that one EQUIV joins, and the expansion of each operator of a thesaurus.
/// It goes as deep as the query.
pub fn reduce(
    alloc: Global,
    query: &Query,
    ctx: &ReduceCtx<'_>,
) -> Result<Option<Flat>, ReduceFault>
    requires limits { keeps_limits (tree_of query.now) ≡ true }
    ensures reduced { Reduces result (faults (context_of ctx.now) false (tree_of query.now)) (reduced (context_of ctx.now) (tree_of query.now)) }
    ensures sound { IfOk result (λ found. IfSome found (λ q. is_sound (reduced_of q) ≡ true)) }
{
    // This tells that the group keeps the rules of groups, so that the stream of a field is at most 64.
    let _sections = ctx.group.sections();
    reduce_part(alloc, query, ctx, false)
}

/// A part of a query; `inside` tells whether a WITHIN stands around it.
fn reduce_part(
    alloc: Global,
    query: &Query,
    ctx: &ReduceCtx<'_>,
    inside: bool,
) -> Result<Option<Flat>, ReduceFault>
    requires { keeps_limits (tree_of query.now) ≡ true }
    ensures { Reduces result (faults (context_of ctx.now) inside (tree_of query.now)) (reduced (context_of ctx.now) (tree_of query.now)) }
{
    match query {
        Query::Leaf(leaf) => Ok(term(leaf_phrases(alloc, ctx, leaf)?)),
        Query::And(a, b) => {
            let a = reduce_part(alloc, a, ctx, inside)?;
            let b = reduce_part(alloc, b, ctx, inside)?;
            Ok(both_query(alloc, Op::And, a, b)?)
        }
        Query::Or(a, b) => {
            let a = reduce_part(alloc, a, ctx, inside)?;
            let b = reduce_part(alloc, b, ctx, inside)?;
            Ok(both_query(alloc, Op::Or, a, b)?)
        }
        Query::Not(a, b) => {
            let a = reduce_part(alloc, a, ctx, inside)?;
            let b = reduce_part(alloc, b, ctx, inside)?;
            Ok(both_query(alloc, Op::Not, a, b)?)
        }
        Query::Minus(a, b) => {
            let a = reduce_part(alloc, a, ctx, inside)?;
            let b = reduce_part(alloc, b, ctx, inside)?;
            Ok(both_query(alloc, Op::Minus, a, b)?)
        }
        Query::Weight(tenths, a) => {
            Ok(around_query(alloc, Weight(*tenths), reduce_part(alloc, a, ctx, inside)?)?)
        }
        Query::Above(number, a) => {
            Ok(around_query(alloc, Above(*number), reduce_part(alloc, a, ctx, inside)?)?)
        }
        Query::Near {
            operands,
            span,
            ordered,
        } => reduce_near(alloc, ctx, operands.as_slice(), *span, *ordered),
        Query::Within(name, a) => {
            let a = reduce_part(alloc, a, ctx, true)?;
            let place = section(ctx.group, name, inside)?;
            Ok(around_query(alloc, Within(place), a)?)
        }
        Query::Define(leaves, sum) => reduce_define(alloc, ctx, leaves.as_slice(), sum.as_slice()),
    }
}

/// Operands near one another, without those that are nothing.
fn reduce_near(
    alloc: Global,
    ctx: &ReduceCtx<'_>,
    parts: &[Listed<Leaf>],
    span: u8,
    ordered: bool,
) -> Result<Option<Flat>, ReduceFault>
    requires { list_all leaves_keep_limits parts.now ≡ true }
    ensures { Reduces result (operands_faults (context_of ctx.now) parts.now) (near_query span ordered (kept_operands (context_of ctx.now) parts.now)) }
{
    let operands = operands(alloc, ctx, parts)?;
    Ok(near_query(operands, span, ordered))
}

/// An operand with the sum that its score is, unless it is nothing.
fn reduce_define(
    alloc: Global,
    ctx: &ReduceCtx<'_>,
    leaves: &[Leaf],
    sum: &[SumStep],
) -> Result<Option<Flat>, ReduceFault>
    requires { leaves_keep_limits leaves.now ≡ true }
    ensures { Reduces result (leaves_faults (context_of ctx.now) leaves.now) (define_query sum.now (operand_phrases (context_of ctx.now) leaves.now)) }
{
    let phrases = operand_phrases(alloc, ctx, leaves)?;
    Ok(define_query(alloc, phrases, sum)?)
}
