//! What a call of CTX_THES.CREATE_RELATION states.

ghost use Rattle.std.specs.Prelude.{◌≡◌, IfOk};
ghost use Rattle.std.specs.Option.{option_map};
ghost use Rattle.db_thes.specs.Stating.{relation_named, stated as stated_relation, stated_by as stated_of, taken_term as term_taken, term_argument as term_there};

use ct_base::Memory;
use db_call::{are_texts, spells_word, text_at};
use q_tree::Relation;
use st_parse::Arg;
use std::alloc::Global;
use th_graph::Term;

/// A relation of two terms, as a call states it.
#[derive(Drop)]
pub(crate) struct StatedRelation {
    pub(crate) first: Term,
    pub(crate) relation: Relation,
    pub(crate) second: Term,
}

/// The relation that a word names, in any ASCII case.
fn relation_of(text: Option<&str>) -> Option<Relation>
    ensures { result ≡ relation_named (option_map (λ t. t.now) text.entry) }
{
    if spells_word(text, "syn") {
        return Some(Relation::Syn);
    }
    if spells_word(text, "bt") {
        return Some(Relation::Broader);
    }
    if spells_word(text, "nt") {
        return Some(Relation::Narrower);
    }
    if spells_word(text, "pt") {
        return Some(Relation::Preferred);
    }
    if spells_word(text, "use") {
        return Some(Relation::Preferred);
    }
    None
}

/// The term that the text at a place of the arguments stands for; None where there is no text, or it stands for none.
fn term_argument(alloc: Global, args: &[Arg], place: usize) -> Result<Option<Term>, Memory>
    ensures { IfOk result (λ found. found ≡ term_there place args.now) }
{
    match text_at(args, place) {
        Some(text) => Term::of(alloc, text),
        None => Ok(None),
    }
}

/// The relation between two terms, where all three are there.
fn stated_by(
    first: Option<Term>,
    relation: Option<Relation>,
    second: Option<Term>,
) -> Option<StatedRelation>
    ensures { result ≡ stated_of first relation second }
{
    let Some(first) = first else {
        return None;
    };
    let Some(relation) = relation else {
        return None;
    };
    let Some(second) = second else {
        return None;
    };
    Some(StatedRelation {
        first,
        relation,
        second,
    })
}

/// What the arguments state; None unless they are four texts, of which the second and the fourth stand for terms and the third names a
/// relation. Its cost is linear in the length of the texts.
pub(crate) fn stated(alloc: Global, args: &[Arg]) -> Result<Option<StatedRelation>, Memory>
    ensures { IfOk result (λ found. found ≡ stated_relation args.now) }
{
    if !are_texts(args, 4) {
        return Ok(None);
    }
    let first = term_argument(alloc, args, 1)?;
    let relation = relation_of(text_at(args, 2));
    let second = term_argument(alloc, args, 3)?;
    Ok(stated_by(first, relation, second))
}

/// The first term, where the relation is known.
pub(crate) fn taken_term(known: bool, stated: &Option<StatedRelation>) -> Option<&str>
    ensures { option_map (λ t. t.now) result ≡ term_taken known stated.now }
{
    match stated {
        Some(stated) if known => Some(stated.first.as_str()),
        _ => None,
    }
}
