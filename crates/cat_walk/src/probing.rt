//! Whether a walk stops at a place.
#![tactic(auto, using(ct_keep::specs::laws::Composing::reads_on, ct_keep::specs::laws::Composing::reads_short, crate::specs::laws::Sparing::spares_on))]

ghost use Rattle.std.specs.Prelude.{◌≡◌, ◌++◌, true, IfOk};
ghost use Rattle.ct_keep.specs.KeeperViews.{Finds, OnlyReads};
ghost use Rattle.cat_walk.specs.Looks.{LooksUpNoText};
ghost use Rattle.cat_walk.specs.Places.{has_place};
ghost use Rattle.cat_walk.specs.Walks.{has_rising_places, route_of, stops_at};

use crate::listed::is_listed;
use crate::walks::Walk;
use ct_base::Memory;
use ct_keep::{KeepFault, Keeper};
use std::alloc::Global;

/// The bytes behind one another.
pub(crate) fn joined(alloc: Global, first: &[u8], second: &[u8]) -> Result<Vec<u8>, Memory>
    ensures { IfOk result (λ bytes. bytes.items ≡ first.now ++ second.now) }
{
    let mut bytes = Vec::from_slice(alloc, first)?;
    bytes.extend_from_slice(second)?;
    Ok(bytes)
}

/// The key of a word's entry at a place.
fn place_key(alloc: Global, stem: &[u8], word: &[u8], place: &[u8]) -> Result<Vec<u8>, Memory>
    ensures { IfOk result (λ key. key.items ≡ (stem.now ++ word.now) ++ place.now) }
{
    let mut key = joined(alloc, stem, word)?;
    key.extend_from_slice(place)?;
    Ok(key)
}

/// Whether a word has an entry at a place.
fn has_place<K: Keeper>(
    alloc: Global,
    keeper: &mut K,
    stem: &[u8],
    word: &[u8],
    place: &[u8],
) -> Result<bool, KeepFault>
    requires { (K.view keeper.old).ready }
    ensures there { Finds K.view keeper.old result (λ m there. there ≡ has_place m stem.now word.now place.now) }
    ensures reads { OnlyReads K.view keeper.old keeper.new result }
    ensures spares { LooksUpNoText stem.now (K.view keeper.old) (K.view keeper.new) }
{
    let key = place_key(alloc, stem, word, place)?;
    let found = keeper.fetch(alloc, &key)?;
    Ok(found.is_some())
}

/// Whether a walk stops at a place. It makes a look-up for each word of the walk, and a binary search in each list of places.
pub(crate) fn stops_at<K: Keeper>(
    alloc: Global,
    keeper: &mut K,
    stem: &[u8],
    walk: &Walk,
    place: &[u8],
) -> Result<bool, KeepFault>
    requires ready { (K.view keeper.old).ready }
    requires rise { has_rising_places (route_of walk.now) ≡ true }
    ensures stops { Finds K.view keeper.old result (λ m stops. stops ≡ stops_at (has_place m stem.now) (route_of walk.now) place.now) }
    ensures reads { OnlyReads K.view keeper.old keeper.new result }
    ensures spares { LooksUpNoText stem.now (K.view keeper.old) (K.view keeper.new) }
{
    match walk {
        Walk::Word(word) => has_place(alloc, keeper, stem, word.as_slice(), place),
        Walk::Places(places) => Ok(is_listed(places.as_slice(), place)),
        Walk::Both(a, b) => {
            let first = stops_at(alloc, keeper, stem, a, place)?;
            let second = stops_at(alloc, keeper, stem, b, place)?;
            Ok(first && second)
        }
        Walk::Without(a, b) => {
            let first = stops_at(alloc, keeper, stem, a, place)?;
            let second = stops_at(alloc, keeper, stem, b, place)?;
            Ok(first && !second)
        }
    }
}
