//! Trees that are terms, and their phrases.

ghost use Rattle.std.specs.Prelude.{◌≡◌, ◌<◌, ◌∷◌, [], IfOk, OnOk, OnSome, MatchOption, vec_len, Some, None};
ghost use Rattle.std.specs.Bool.{if◌then◌else◌};
ghost use Rattle.q_tree.specs.Trees.{tree_of};
ghost use Rattle.q_parse.specs.Machine.{is_terms, phrases_of};
ghost use Rattle.q_parse.specs.Views.{trees_of};

use ct_base::{Listed, Memory};
use q_tree::{Leaf, Query};
use std::alloc::{AllocFailed, Global};

#[tactic(auto, using(crate::proofs::Frames::trees_of_last))]
fn push_query(queries: &mut Vec<Query>, query: Query) -> Result<(), AllocFailed<Query>>
    ensures { OnOk result (trees_of queries.new.items ≡ tree_of query ∷ trees_of queries.old.items) }
{
    queries.push(query)?;
    Ok(())
}

#[tactic(auto, using(crate::proofs::Frames::trees_of_last, crate::proofs::Frames::no_trees_left))]
fn pop_query(queries: &mut Vec<Query>) -> Option<Query>
    ensures trees { MatchOption result (trees_of queries.old.items ≡ []) (λ q. trees_of queries.old.items ≡ tree_of q ∷ trees_of queries.new.items) }
{
    match queries.pop() {
        None => None,
        Some(query) => Some(query),
    }
}

/// The phrases of a tree, if it is terms: phrases alone with OR between them. Its cost is the number of phrases.
#[tactic(auto, using(crate::proofs::Phrases::terms_or))]
pub(crate) fn terms_of(alloc: Global, query: Query) -> Result<Option<Listed<Leaf>>, Memory>
    ensures { IfOk result (λ found. found ≡ (if is_terms (tree_of query) then Some (phrases_of (tree_of query)) else None)) }
{
    let mut phrases = Listed::empty(alloc);
    let mut queries = Vec::new(alloc);
    push_query(&mut queries, query)?;
    'trees: while let Some(tree) = pop_query(&mut queries) {
        match tree {
            Query::Leaf(leaf) => phrases = phrases.with(leaf)?,
            Query::Or(left, right) => {
                push_query(&mut queries, Box::into_inner(right))?;
                push_query(&mut queries, Box::into_inner(left))?;
            }
            _ => return Ok(None),
        }
    }
    Ok(Some(phrases))
}
