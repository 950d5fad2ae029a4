//! The thesauri that queries name.

ghost use Rattle.std.specs.Prelude.{◌≡◌, IfOk, OnOk, bytes_eq};
ghost use Rattle.std.specs.List.{flat_map, list_any};
ghost use Rattle.q_tree.specs.Trees.{tree_of};
ghost use Rattle.q_reduce.specs.Naming.{leaf_names, leaves_names, names_in, thesauri_in, with_thesaurus_name, with_thesaurus_names};

use ct_base::{Listed, Memory, Name};
use q_tree::{Leaf, Query};
use std::alloc::Global;

fn is_same(a: &Name, b: &Name) -> bool
    ensures { result ≡ bytes_eq a.now b.now }
{
    a.as_str() == b.as_str()
}

fn has_name(names: &[Name], name: &Name) -> bool
    ensures { result ≡ list_any (bytes_eq name.now) names.now }
{
    names.iter().any(|other| is_same(name, other))
}

/// Puts a name behind the others, unless it is there.
fn put_name(names: &mut Vec<Name>, name: &Name) -> Result<(), Memory>
    ensures { OnOk result (names.new.items ≡ with_thesaurus_name names.old.items name.now) }
{
    if !has_name(names.as_slice(), name) {
        names.push(name.clone()?)?;
    }
    Ok(())
}

fn put_leaf(names: &mut Vec<Name>, leaf: &Leaf) -> Result<(), Memory>
    ensures { OnOk result (names.new.items ≡ with_thesaurus_names names.old.items (leaf_names leaf.now)) }
{
    match leaf {
        Leaf::Phrase(_) => Ok(()),
        Leaf::Thes { thesaurus, .. } => put_name(names, thesaurus),
    }
}

fn put_leaves(names: &mut Vec<Name>, leaves: &[Leaf]) -> Result<(), Memory>
    ensures { OnOk result (names.new.items ≡ with_thesaurus_names names.old.items (leaves_names leaves.now)) }
{
    let mut rest = leaves;
    while let [leaf, later @ ..] = rest {
        put_leaf(names, leaf)?;
        rest = later;
    }
    Ok(())
}

fn put_operands(names: &mut Vec<Name>, operands: &[Listed<Leaf>]) -> Result<(), Memory>
    ensures { OnOk result (names.new.items ≡ with_thesaurus_names names.old.items (flat_map leaves_names operands.now)) }
{
    let mut rest = operands;
    while let [leaves, later @ ..] = rest {
        put_leaves(names, leaves.as_slice())?;
        rest = later;
    }
    Ok(())
}

/// Puts the names of a part of a query.
#[tactic(auto, using(crate::proofs::NamingSteps::with_both))]
fn put_names(names: &mut Vec<Name>, query: &Query) -> Result<(), Memory>
    ensures { OnOk result (names.new.items ≡ with_thesaurus_names names.old.items (names_in (tree_of query.now))) }
{
    match query {
        Query::Leaf(leaf) => put_leaf(names, leaf),
        Query::And(a, b) | Query::Or(a, b) | Query::Not(a, b) | Query::Minus(a, b) => {
            put_names(names, a)?;
            put_names(names, b)
        }
        Query::Weight(_, a) | Query::Above(_, a) | Query::Within(_, a) => put_names(names, a),
        Query::Near { operands, .. } => put_operands(names, operands.as_slice()),
        Query::Define(leaves, _) => put_leaves(names, leaves.as_slice()),
    }
}

/// The names of the thesauri that a query asks for, each once, in the order of its text. Its cost is linear in the size of the query,
/// but for the square of the number of thesauri.
pub fn thesauri_in(alloc: Global, query: &Query) -> Result<Vec<Name>, Memory>
    ensures { IfOk result (λ v. v.items ≡ thesauri_in (tree_of query.now)) }
{
    let mut names = Vec::new(alloc);
    put_names(&mut names, query)?;
    Ok(names)
}
