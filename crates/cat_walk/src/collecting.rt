//! The places at which walks stop, collected in lists.
#![tactic(auto, using(ct_keep::specs::laws::Composing::reads_on, ct_keep::specs::laws::Composing::reads_short, crate::specs::laws::Sparing::spares_on))]

ghost use Rattle.std.specs.Prelude.{◌≡◌, ◌++◌, [], ℕ, Bool, List, true, OnOk};
ghost use Rattle.ct_keep.specs.KeeperViews.{Finds, OnlyReads};
ghost use Rattle.cat_walk.specs.Looks.{LooksUpNoText};
ghost use Rattle.cat_walk.specs.Places.{ArePlacesUpTo, has_place};
ghost use Rattle.cat_walk.specs.Walks.{AddsStops, Places, StopsAlike, has_rising_places, route_of, stops_at};

use crate::gathering::sort_places;
use crate::probing::stops_at;
use crate::scanning::put_place;
use crate::stepping::next_place;
use crate::walks::Walk;
use ct_base::{Bytes, Listed, Memory};
use ct_keep::{KeepFault, Keeper};
use std::alloc::Global;

/// The empty place, which no step comes to since none comes before it, if a walk stops there.
fn empty_place<K: Keeper>(
    alloc: Global,
    keeper: &mut K,
    stem: &[u8],
    walk: &Walk,
) -> Result<Vec<Bytes>, KeepFault>
    requires ready { (K.view keeper.old).ready }
    requires rise { has_rising_places (route_of walk.now) ≡ true }
    ensures places { Finds K.view keeper.old result (λ m places. ArePlacesUpTo (stops_at (has_place m stem.now) (route_of walk.now)) [] places.items) }
    ensures reads { OnlyReads K.view keeper.old keeper.new result }
    ensures spares { LooksUpNoText stem.now (K.view keeper.old) (K.view keeper.new) }
{
    let mut places = Vec::new(alloc);
    if !stops_at(alloc, keeper, stem, walk, &[])? {
        return Ok(places);
    }
    put_place(alloc, &mut places, &[])?;
    Ok(places)
}

/// The places at which a walk stops.
fn stops_of<K: Keeper>(
    alloc: Global,
    keeper: &mut K,
    stem: &[u8],
    walk: &Walk,
) -> Result<Vec<Bytes>, KeepFault>
    requires ready { (K.view keeper.old).ready }
    requires rise { has_rising_places (route_of walk.now) ≡ true }
    ensures places { Finds K.view keeper.old result (λ m places. StopsAlike (has_place m stem.now) (route_of walk.now) (Places places.items)) }
    ensures reads { OnlyReads K.view keeper.old keeper.new result }
    ensures spares { LooksUpNoText stem.now (K.view keeper.old) (K.view keeper.new) }
{
    let mut places = empty_place(alloc, keeper, stem, walk)?;
    let mut last = Vec::new(alloc);
    'steps: for _ in 0..u64::MAX {
        let Some(here) = next_place(alloc, keeper, stem, walk, &last)? else {
            return Ok(places);
        };
        put_place(alloc, &mut places, &here)?;
        last = here;
    }
    // no index has so many entries
    Err(KeepFault::Memory)
}

/// Appends places to others.
fn put_places(places: &mut Vec<Bytes>, more: Vec<Bytes>) -> Result<(), Memory>
    ensures { OnOk result (places.new.items ≡ places.old.items ++ more.items) }
{
    let mut more = more;
    places.append(&mut more)?;
    Ok(())
}

/// Appends the places at which a walk stops.
///
/// It walks once, from the beginning of the sub-index to its end, and holds these places; the empty place, which no entry of a catalogue has, is
/// asked for by itself. So it costs all steps of the walk. It reads no text, and never answers Full.
pub fn put_stops<K: Keeper>(
    alloc: Global,
    keeper: &mut K,
    stem: &[u8],
    walk: &Walk,
    places: &mut Vec<Bytes>,
) -> Result<(), KeepFault>
    requires ready { (K.view keeper.old).ready }
    requires rise { has_rising_places (route_of walk.now) ≡ true }
    ensures places { Finds K.view keeper.old result (λ m _. AddsStops (has_place m stem.now) (route_of walk.now) places.old.items places.new.items) }
    ensures reads { OnlyReads K.view keeper.old keeper.new result }
    ensures spares { LooksUpNoText stem.now (K.view keeper.old) (K.view keeper.new) }
{
    let stops = stops_of(alloc, keeper, stem, walk)?;
    put_places(places, stops)?;
    Ok(())
}

/// The walk that stops at these places, which may stand in any order, and several times. It puts them in order, and takes no memory.
pub fn place_list(places: Vec<Bytes>) -> Walk
    ensures stops { (has : List ℕ → List ℕ → Bool) → StopsAlike has (Places places.items) (route_of result) }
    ensures rise { has_rising_places (route_of result) ≡ true }
{
    let mut list = places;
    sort_places(&mut list);
    Walk::Places(Listed::of(list))
}
