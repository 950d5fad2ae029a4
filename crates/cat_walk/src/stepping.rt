//! The next place at which a walk stops.
#![tactic(auto, using(ct_keep::specs::laws::Composing::reads_on, ct_keep::specs::laws::Composing::reads_short, crate::specs::laws::Sparing::spares_on))]

ghost use Rattle.std.specs.Prelude.{◌≡◌, true};
ghost use Rattle.ct_keep.specs.KeeperViews.{Finds, OnlyReads};
ghost use Rattle.cat_walk.specs.Looks.{LooksUpNoText};
ghost use Rattle.cat_walk.specs.Places.{IsNext, has_place, next_of};
ghost use Rattle.cat_walk.specs.Walks.{Both, Without, has_rising_places, route_of, stops_at};

use crate::listed::{next_listed, place_copy};
use crate::probing::{joined, stops_at};
use crate::walks::Walk;
use ct_keep::{KeepFault, Keeper, next_under};
use std::alloc::Global;

/// The next place at which a word has an entry. It takes one look-up.
fn next_of_word<K: Keeper>(
    alloc: Global,
    keeper: &mut K,
    stem: &[u8],
    word: &[u8],
    after: &[u8],
) -> Result<Option<Vec<u8>>, KeepFault>
    requires { (K.view keeper.old).ready }
    ensures next { Finds K.view keeper.old result (λ m next. IsNext (has_place m stem.now word.now) after.now (next_of next)) }
    ensures reads { OnlyReads K.view keeper.old keeper.new result }
    ensures spares { LooksUpNoText stem.now (K.view keeper.old) (K.view keeper.new) }
{
    let prefix = joined(alloc, stem, word)?;
    match next_under(alloc, keeper, &prefix, after)? {
        Some((place, _value)) => Ok(Some(place)),
        None => Ok(None),
    }
}

/// The next place at which both walks stop: where the one stops, unless the other doesn't stop there too, and else from where the other goes on.
#[cycle(next)]
fn next_of_both<K: Keeper>(
    alloc: Global,
    keeper: &mut K,
    stem: &[u8],
    a: &Walk,
    b: &Walk,
    after: &[u8],
) -> Result<Option<Vec<u8>>, KeepFault>
    requires ready { (K.view keeper.old).ready }
    requires rise_a { has_rising_places (route_of a.now) ≡ true }
    requires rise_b { has_rising_places (route_of b.now) ≡ true }
    ensures next { Finds K.view keeper.old result (λ m next. IsNext (stops_at (has_place m stem.now) (Both (route_of a.now) (route_of b.now))) after.now (next_of next)) }
    ensures reads { OnlyReads K.view keeper.old keeper.new result }
    ensures spares { LooksUpNoText stem.now (K.view keeper.old) (K.view keeper.new) }
{
    let mut last = place_copy(alloc, after)?;
    'steps: for _ in 0..u64::MAX {
        let Some(here) = next_place(alloc, keeper, stem, a, &last)? else {
            return Ok(None);
        };
        if stops_at(alloc, keeper, stem, b, &here)? {
            return Ok(Some(here));
        }
        let Some(there) = next_place(alloc, keeper, stem, b, &here)? else {
            return Ok(None);
        };
        if stops_at(alloc, keeper, stem, a, &there)? {
            return Ok(Some(there));
        }
        last = there;
    }
    // no index has so many entries
    Err(KeepFault::Memory)
}

/// The next place at which the first walk stops and the second doesn't.
#[cycle(next)]
fn next_without<K: Keeper>(
    alloc: Global,
    keeper: &mut K,
    stem: &[u8],
    a: &Walk,
    b: &Walk,
    after: &[u8],
) -> Result<Option<Vec<u8>>, KeepFault>
    requires ready { (K.view keeper.old).ready }
    requires rise_a { has_rising_places (route_of a.now) ≡ true }
    requires rise_b { has_rising_places (route_of b.now) ≡ true }
    ensures next { Finds K.view keeper.old result (λ m next. IsNext (stops_at (has_place m stem.now) (Without (route_of a.now) (route_of b.now))) after.now (next_of next)) }
    ensures reads { OnlyReads K.view keeper.old keeper.new result }
    ensures spares { LooksUpNoText stem.now (K.view keeper.old) (K.view keeper.new) }
{
    let mut last = place_copy(alloc, after)?;
    'steps: for _ in 0..u64::MAX {
        let Some(here) = next_place(alloc, keeper, stem, a, &last)? else {
            return Ok(None);
        };
        if !stops_at(alloc, keeper, stem, b, &here)? {
            return Ok(Some(here));
        }
        last = here;
    }
    // no index has so many entries
    Err(KeepFault::Memory)
}

/// The next place, behind one, at which a walk stops; None where there is none. The stem is what the keys of the sub-index begin with.
///
/// Each step takes a look-up for each word at most, and a binary search in each list of places. Of two walks that both have to stop, each
/// goes on behind the place at which the other stopped, so the number of steps is near twice that of the places at which the rarer one
/// stops; and where the second mustn't stop, it is that of the places at which the first does. From one call to the next a walk goes on
/// where it was, so no step is made twice, and all calls together take no more look-ups than a few times the words of the walk times the places of the most
/// frequent one. It reads no text, and never answers Full.
#[cycle(next)]
pub fn next_place<K: Keeper>(
    alloc: Global,
    keeper: &mut K,
    stem: &[u8],
    walk: &Walk,
    after: &[u8],
) -> Result<Option<Vec<u8>>, KeepFault>
    requires ready { (K.view keeper.old).ready }
    requires rise { has_rising_places (route_of walk.now) ≡ true }
    ensures next { Finds K.view keeper.old result (λ m next. IsNext (stops_at (has_place m stem.now) (route_of walk.now)) after.now (next_of next)) }
    ensures reads { OnlyReads K.view keeper.old keeper.new result }
    ensures spares { LooksUpNoText stem.now (K.view keeper.old) (K.view keeper.new) }
{
    match walk {
        Walk::Word(word) => next_of_word(alloc, keeper, stem, word.as_slice(), after),
        Walk::Places(places) => Ok(next_listed(alloc, places.as_slice(), after)?),
        Walk::Both(a, b) => next_of_both(alloc, keeper, stem, a, b, after),
        Walk::Without(a, b) => next_without(alloc, keeper, stem, a, b, after),
    }
}
