//! Walks for queries.
#![tactic(auto, using(ct_keep::specs::laws::Composing::reads_on, ct_keep::specs::laws::Composing::reads_short, cat_walk::specs::laws::Sparing::spares_on))]

ghost use Rattle.std.specs.Prelude.{◌≡◌, true, take, IfOk};
ghost use Rattle.std.specs.List.{list_all, list_any};
ghost use Rattle.ct_keep.specs.KeeperViews.{Finds, OnlyReads};
ghost use Rattle.q_tree.specs.ReducedQueries.{reduced_of};
ghost use Rattle.q_tree.specs.Soundness.{is_phrase, is_slot, is_sound, is_term};
ghost use Rattle.cat_walk.specs.Looks.{LooksUpNoText};
ghost use Rattle.cat_walk.specs.Walks.{Both, Without, has_rising_places, route_of};
ghost use Rattle.cat_search.specs.Queries.{is_boolean};
ghost use Rattle.cat_search.specs.Words.{is_exact, is_single, may_meet, phrase_may};
ghost use Rattle.cat_search.specs.Walking.{GathersRows, IsWalkFor, JoinsSlot};

use crate::slots::walk_of_slot;
use cat_walk::{Walk, place_list, put_slot, put_stops};
use ct_base::{Bytes, Memory};
use ct_keep::{KeepFault, Keeper};
use q_tree::{Flat, Phrase, Slot};
use std::alloc::Global;

/// The walk that stops where both do.
fn both(alloc: Global, a: Walk, b: Walk) -> Result<Walk, Memory>
    ensures { IfOk result (λ walk. route_of walk ≡ Both (route_of a) (route_of b)) }
{
    let a = Box::new(alloc, a)?;
    let b = Box::new(alloc, b)?;
    Ok(Walk::Both(a, b))
}

/// The walk that stops where the first does and the second doesn't.
fn without(alloc: Global, a: Walk, b: Walk) -> Result<Walk, Memory>
    ensures { IfOk result (λ walk. route_of walk ≡ Without (route_of a) (route_of b)) }
{
    let a = Box::new(alloc, a)?;
    let b = Box::new(alloc, b)?;
    Ok(Walk::Without(a, b))
}

/// The walk that stops where this one does, and the words of the row have one for the slot too. Each row has a word for Any.
fn with_slot<K: Keeper>(
    alloc: Global,
    keeper: &mut K,
    stem: &[u8],
    walk: Walk,
    slot: &Slot,
) -> Result<Walk, KeepFault>
    requires ready { (K.view keeper.old).ready }
    requires slot { is_slot slot.now ≡ true }
    requires rise { has_rising_places (route_of walk) ≡ true }
    ensures walk { Finds K.view keeper.old result (λ m more. JoinsSlot m stem.now slot.now (route_of walk) (route_of more)) }
    ensures rise { IfOk result (λ more. has_rising_places (route_of more) ≡ true) }
    ensures reads { OnlyReads K.view keeper.old keeper.new result }
    ensures spares { LooksUpNoText stem.now (K.view keeper.old) (K.view keeper.new) }
{
    match slot {
        Slot::Any => Ok(walk),
        Slot::Takes { .. } => {
            let other = walk_of_slot(alloc, keeper, stem, slot)?;
            Ok(both(alloc, walk, other)?)
        }
    }
}

/// How many slots behind the first one of a phrase a walk looks for.
const LATER_SLOTS: usize = 15;

/// The first of the slots behind the first one of a phrase.
fn walked(later: &[Slot]) -> &[Slot]
    ensures { result.now ≡ take 15 later.now }
{
    if later.len() <= LATER_SLOTS {
        return later;
    }
    &later[..LATER_SLOTS]
}

/// The walk over the rows whose words have one for each of the first 16 slots of a phrase: so it is never deeper than these, and the text of the
/// row tells the rest.
fn walk_of_phrase<K: Keeper>(
    alloc: Global,
    keeper: &mut K,
    stem: &[u8],
    phrase: &[Slot],
) -> Result<Walk, KeepFault>
    requires ready { (K.view keeper.old).ready }
    requires phrase { is_phrase phrase.now ≡ true }
    ensures walk { Finds K.view keeper.old result (λ m walk. IsWalkFor m stem.now (λ words. phrase_may words phrase.now) (route_of walk)) }
    ensures rise { IfOk result (λ walk. has_rising_places (route_of walk) ≡ true) }
    ensures reads { OnlyReads K.view keeper.old keeper.new result }
    ensures spares { LooksUpNoText stem.now (K.view keeper.old) (K.view keeper.new) }
{
    let [first, later @ ..] = phrase else {
        unreachable!()
    };
    let mut walk = walk_of_slot(alloc, keeper, stem, first)?;
    let mut rest = walked(later);
    'slots: while let Some((slot, others)) = rest.split_first() {
        walk = with_slot(alloc, keeper, stem, walk, slot)?;
        rest = others;
    }
    Ok(walk)
}

/// Appends the places of the rows whose words have one for each of the first 16 slots of a phrase: of one slot by scans, and of several by a walk.
fn put_phrase<K: Keeper>(
    alloc: Global,
    keeper: &mut K,
    stem: &[u8],
    phrase: &[Slot],
    places: &mut Vec<Bytes>,
) -> Result<(), KeepFault>
    requires ready { (K.view keeper.old).ready }
    requires phrase { is_phrase phrase.now ≡ true }
    ensures places { Finds K.view keeper.old result (λ m _. GathersRows m stem.now (λ words. phrase_may words phrase.now) places.old.items places.new.items) }
    ensures reads { OnlyReads K.view keeper.old keeper.new result }
    ensures spares { LooksUpNoText stem.now (K.view keeper.old) (K.view keeper.new) }
{
    if let [slot] = phrase {
        return put_slot(alloc, keeper, stem, slot, places);
    }
    let walk = walk_of_phrase(alloc, keeper, stem, phrase)?;
    put_stops(alloc, keeper, stem, &walk, places)
}

/// Appends those of some phrases, one after the other.
fn put_phrases<K: Keeper>(
    alloc: Global,
    keeper: &mut K,
    stem: &[u8],
    phrases: &[Phrase],
    places: &mut Vec<Bytes>,
) -> Result<(), KeepFault>
    requires ready { (K.view keeper.old).ready }
    requires term { is_term phrases.now ≡ true }
    ensures places { Finds K.view keeper.old result (λ m _. GathersRows m stem.now (λ words. list_any (phrase_may words) phrases.now) places.old.items places.new.items) }
    ensures reads { OnlyReads K.view keeper.old keeper.new result }
    ensures spares { LooksUpNoText stem.now (K.view keeper.old) (K.view keeper.new) }
{
    let mut rest = phrases;
    'phrases: while let Some((phrase, others)) = rest.split_first() {
        put_phrase(alloc, keeper, stem, phrase.as_slice(), places)?;
        rest = others;
    }
    Ok(())
}

/// The walk over the rows whose words have one for each slot of some phrase of a term. Of several phrases the places are gathered in one list.
fn walk_of_term<K: Keeper>(
    alloc: Global,
    keeper: &mut K,
    stem: &[u8],
    phrases: &[Phrase],
) -> Result<Walk, KeepFault>
    requires ready { (K.view keeper.old).ready }
    requires term { is_term phrases.now ≡ true }
    ensures walk { Finds K.view keeper.old result (λ m walk. IsWalkFor m stem.now (λ words. list_any (phrase_may words) phrases.now) (route_of walk)) }
    ensures rise { IfOk result (λ walk. has_rising_places (route_of walk) ≡ true) }
    ensures reads { OnlyReads K.view keeper.old keeper.new result }
    ensures spares { LooksUpNoText stem.now (K.view keeper.old) (K.view keeper.new) }
{
    if let [phrase] = phrases {
        return walk_of_phrase(alloc, keeper, stem, phrase.as_slice());
    }
    let mut places = Vec::new(alloc);
    put_phrases(alloc, keeper, stem, phrases, &mut places)?;
    Ok(place_list(places))
}

/// Whether each phrase has one slot.
fn are_single(phrases: &[Phrase]) -> bool
    ensures { result ≡ list_all is_single phrases.now }
{
    phrases.iter().all(|phrase| phrase.as_slice().len() == 1)
}

/// Whether each phrase of a query has one slot: then the walk for it stops at just the rows that meet it.
pub(crate) fn is_exact(flat: &Flat) -> bool
    ensures { result ≡ is_exact (reduced_of flat.now) }
{
    match flat {
        Flat::Term(phrases) => are_single(phrases.as_slice()),
        Flat::And(a, b) | Flat::Or(a, b) | Flat::Not(a, b) | Flat::Minus(a, b) => {
            let first = is_exact(a);
            let second = is_exact(b);
            first && second
        }
        Flat::Weight(_, _)
        | Flat::Above(_, _)
        | Flat::Near { .. }
        | Flat::Within(_, _)
        | Flat::Define(_, _) => false,
    }
}

/// Appends the places of the rows whose words don't rule out that they meet the query. The arms of a chain of ORs are gathered one after the other.
#[cycle(compile)]
fn put_rows<K: Keeper>(
    alloc: Global,
    keeper: &mut K,
    stem: &[u8],
    flat: &Flat,
    places: &mut Vec<Bytes>,
) -> Result<(), KeepFault>
    requires ready { (K.view keeper.old).ready }
    requires sound { is_sound (reduced_of flat.now) ≡ true }
    requires boolean { is_boolean (reduced_of flat.now) ≡ true }
    ensures places { Finds K.view keeper.old result (λ m _. GathersRows m stem.now (may_meet (reduced_of flat.now)) places.old.items places.new.items) }
    ensures reads { OnlyReads K.view keeper.old keeper.new result }
    ensures spares { LooksUpNoText stem.now (K.view keeper.old) (K.view keeper.new) }
{
    match flat {
        Flat::Term(phrases) => put_phrases(alloc, keeper, stem, phrases.as_slice(), places),
        Flat::Or(a, b) => {
            put_rows(alloc, keeper, stem, a, places)?;
            put_rows(alloc, keeper, stem, b, places)
        }
        _ => {
            let walk = compile(alloc, keeper, stem, flat)?;
            put_stops(alloc, keeper, stem, &walk, places)
        }
    }
}

/// The walk over the rows whose words don't rule out that they meet the query. It stops at each row that does.
///
/// It is as deep as the query, of whose phrases the first 16 slots count. Where one of several parts is enough, as of the arms of OR, the phrases of a
/// term and the keys and patterns of a slot, their places are gathered in one list, which is put in order once: a part of one slot is scanned, and any
/// other is walked once, from its beginning to its end. So no step asks several parts for the next place of one of them, here or in the search, and
/// no query costs the square of its words times the rows that have them. The places of all these lists are held at once.
#[cycle(compile)]
pub(crate) fn compile<K: Keeper>(
    alloc: Global,
    keeper: &mut K,
    stem: &[u8],
    flat: &Flat,
) -> Result<Walk, KeepFault>
    requires ready { (K.view keeper.old).ready }
    requires sound { is_sound (reduced_of flat.now) ≡ true }
    requires boolean { is_boolean (reduced_of flat.now) ≡ true }
    ensures walk { Finds K.view keeper.old result (λ m walk. IsWalkFor m stem.now (may_meet (reduced_of flat.now)) (route_of walk)) }
    ensures rise { IfOk result (λ walk. has_rising_places (route_of walk) ≡ true) }
    ensures reads { OnlyReads K.view keeper.old keeper.new result }
    ensures spares { LooksUpNoText stem.now (K.view keeper.old) (K.view keeper.new) }
{
    match flat {
        Flat::Term(phrases) => walk_of_term(alloc, keeper, stem, phrases.as_slice()),
        Flat::And(a, b) => {
            let first = compile(alloc, keeper, stem, a)?;
            let second = compile(alloc, keeper, stem, b)?;
            Ok(both(alloc, first, second)?)
        }
        Flat::Or(a, b) => {
            let mut places = Vec::new(alloc);
            put_rows(alloc, keeper, stem, a, &mut places)?;
            put_rows(alloc, keeper, stem, b, &mut places)?;
            Ok(place_list(places))
        }
        Flat::Not(a, b) => {
            let first = compile(alloc, keeper, stem, a)?;
            if !is_exact(b) {
                return Ok(first);
            }
            let second = compile(alloc, keeper, stem, b)?;
            Ok(without(alloc, first, second)?)
        }
        Flat::Minus(_, _)
        | Flat::Weight(_, _)
        | Flat::Above(_, _)
        | Flat::Near { .. }
        | Flat::Within(_, _)
        | Flat::Define(_, _) => unreachable!(),
    }
}
